// What the lines that answer a request are written with.

use rail_model::Names;
use std::alloc::Global;

/// What the lines that answer a request are written with: its tag, and what trains and points are called.
#[derive(Clone, Copy)]
pub struct Page<'a> {
    pub alloc: Global,
    pub tag: &'a [u8],
    pub names: &'a Names,
}
