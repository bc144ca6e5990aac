// Names, each with its number.
ghost use Rattle.std.specs.Prelude.{◌≡◌, ◌≤◌, IfOk, map, vec_len, string_bytes, position, bytes_eq};
ghost use Rattle.rail_model.specs.Turns.{AnswersAs};
ghost use Rattle.track_layout.specs.Numbering.{numbered};

use indexmap::IndexSet;
use std::alloc::{AllocError, AllocFailed, Global};
use std::marker::Model;

/// Why names have no numbers.
#[derive(Clone, Copy)]
pub enum NotNumbered {
    /// The first name that an earlier place has, with that place.
    Double { first: u32, second: u32 },
    Memory,
}

impl<T: Drop> From<AllocFailed<T>> for NotNumbered {
    ghost use Rattle.track_layout.specs.declared.numbers.NotNumbered.TheVariants.{Memory};

    ghost from_gives = { λ _ e. e ≡ Memory };

    fn from(_error: AllocFailed<T>) -> NotNumbered {
        NotNumbered::Memory
    }
}

/// At most 512 different names, numbered from 0 in their order.
#[derive(Drop)]
pub struct Numbers {
    names: IndexSet<String>,
}

impl Model for Numbers {
    ghost use Rattle.std.specs.Prelude.{ℕ, ◌≤◌, List, map, string_bytes};
    ghost use Rattle.indexmap.specs.IndexSet.{index_set_len};

    ghost Value = { List (List ℕ) };

    ghost view = { λ n. map string_bytes n.names.keys };

    ghost invariant = { λ n. index_set_len n.names ≤ 512 };
}

impl Numbers {
    /// Numbers at most 512 names.
    ///
    /// # Errors
    ///
    /// `Double` exactly where a name comes twice; out of memory.
    pub fn new(alloc: Global, names: Vec<String>) -> Result<Self, NotNumbered>
        requires { vec_len names ≤ 512 }
        ensures { AnswersAs NotNumbered.Memory (λ numbers. numbers) result (numbered (map string_bytes names.items)) }
    {
        let mut set = IndexSet::new(alloc);
        for name in names {
            let second = set.len();
            let (first, added) = set.insert_full(name)?;
            if !added {
                return Err(NotNumbered::Double {
                    first: first as u32,
                    second: second as u32,
                });
            }
        }
        Ok(Numbers { names: set })
    }

    /// The number of a name.
    pub fn number(&self, name: &str) -> Option<u32>
        ensures { result ≡ position (bytes_eq name.now) self.now }
    {
        let number = self.names.get_index_of(name)?;
        Some(number as u32)
    }

    /// The names in their order.
    pub fn into_names(self, alloc: Global) -> Result<Vec<String>, AllocError>
        ensures { IfOk result (λ names. map string_bytes names.items ≡ self) }
    {
        self.names.into_iter().collect(alloc)
    }
}
