// One call of the program in memory.
ghost use Rattle.std.specs.Prelude.{◌≡◌, ◌<◌, [], Some, IfOk, map, option_map, string_bytes};
ghost use Rattle.ats_rows.specs.Calls.{IsPlayed};

use ats_io::{Fails, Gate, MemSink, MemSource, SureSink};
use ats_run::{Status, ats};
use std::alloc::{AllocError, Global};
use std::marker::Brand;
use std::sync::Wait;
use std::thread::Threads;

/// How many bytes source and sink hand over a call, and at which of their calls, from 0, they fail.
#[derive(Clone, Copy)]
pub struct Faults<'a> {
    pub most: usize,
    pub reads: &'a [u64],
    pub writes: &'a [u64],
}

/// How a call ended, what it wrote, and its line on the error sink: `None` where that passed the room of its sink. What it left of its input, and how
/// many reads and writes it made.
#[derive(Drop)]
pub struct Played {
    pub status: Status,
    pub written: Vec<u8>,
    pub told: Option<Vec<u8>>,
    pub left: Vec<u8>,
    pub reads: u64,
    pub writes: u64,
}

// A copy of some bytes.
fn copied(alloc: Global, bytes: &[u8]) -> Result<Vec<u8>, AllocError>
    ensures { IfOk result (λ copy. copy.items ≡ bytes.now) }
{
    bytes.to_vec(alloc)
}

// A copy of the bytes that a sink took, where they are known.
fn copied_of(alloc: Global, sink: &SureSink) -> Result<Option<Vec<u8>>, AllocError>
    ensures { IfOk result (λ told. option_map (λ bytes. bytes.items) told ≡ sink.now) }
{
    match sink.bytes() {
        Some(bytes) => Ok(Some(copied(alloc, bytes)?)),
        None => Ok(None),
    }
}

// The program called over these devices, which are new.
fn play_on<R: Threads + Wait + Sync, G: Gate, S: Fails, K: Fails>(
    rt: &R,
    alloc: Global,
    line: &[String],
    source: &mut MemSource<S>,
    out: &mut MemSink<K>,
    err: &mut SureSink,
    gate: &G,
) -> Result<Played, AllocError>
    requires source { source.old.plan.faults ≡ 0 }
    requires sink { out.old.plan.faults ≡ 0 }
    requires written { out.old.taken ≡ [] }
    requires told { err.old ≡ Some [] }
    ensures { IfOk result (IsPlayed (map string_bytes line.now) source.old.left S.numbers K.numbers) }
{
    let status = ats(rt, alloc, line, source, out, err, gate);
    Ok(Played {
        status,
        written: copied(alloc, out.bytes())?,
        told: copied_of(alloc, err)?,
        left: copied(alloc, source.left())?,
        reads: source.calls(),
        writes: out.calls(),
    })
}

// The program called over new devices, of which these calls fail.
fn play_by<R: Threads + Wait + Sync, G: Gate, S: Fails, K: Fails>(
    rt: &R,
    alloc: Global,
    line: &[String],
    input: Vec<u8>,
    faults: Faults<'_>,
    gate: &G,
) -> Result<Played, AllocError>
    requires most { 0 < faults.most }
    requires reads { faults.reads.now ≡ S.numbers }
    requires writes { faults.writes.now ≡ K.numbers }
    ensures { IfOk result (IsPlayed (map string_bytes line.now) input.items S.numbers K.numbers) }
{
    let mut source = MemSource::<S>::new(input, faults.most, faults.reads.to_vec(alloc)?);
    let mut out = MemSink::<K>::new(alloc, faults.most, faults.writes.to_vec(alloc)?)?;
    let mut err = SureSink::new(alloc)?;
    play_on(rt, alloc, line, &mut source, &mut out, &mut err, gate)
}

/// Calls the program with these words on an input in memory. Its error sink never fails. Where the words ask for
/// workers, each calls the gate.
///
/// # Errors
///
/// `AllocError` where there is no memory for the devices or for what they took.
pub fn play<R: Threads + Wait + Sync, G: Gate>(
    rt: &R,
    alloc: Global,
    line: &[String],
    input: Vec<u8>,
    faults: Faults<'_>,
    gate: &G,
) -> Result<Played, AllocError>
    requires { 0 < faults.most }
    ensures { IfOk result (IsPlayed (map string_bytes line.now) input.items faults.entry.reads.now faults.entry.writes.now) }
{
    play_by::<R, G, Brand, Brand>(rt, alloc, line, input, faults, gate)
}
