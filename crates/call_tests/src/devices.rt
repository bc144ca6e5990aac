// Devices: those in memory, and the adapters of the system's readers and writers.
use ats_io::{MemSink, Reading, SureSink, SureSource, Writing, read_all, write_all};
use std::alloc::Global;
use std::io;
use std::io::{ErrorKind, Read, Write};
use std::marker::Brand;

/// The journal of the first path, 49 bytes.
pub(crate) fn first_path_journal() -> &'static [u8] {
    b"1 move T0 A B\n2 move T0 B C\nend moves=2 tables=0\n"
}

// Whether a sink that has room for these bytes takes them, and then no more.
fn is_filled(alloc: Global, bytes: &[u8]) -> bool {
    let Ok(mut sink) = MemSink::<Brand>::new(alloc, 1_000_000, Vec::new(alloc)) else {
        return false;
    };
    write_all(&mut sink, bytes).is_ok()
        && sink.bytes() == bytes
        && write_all(&mut sink, b"8").is_err()
}

// Whether a sink that never fails keeps these bytes, and nothing once it has taken one more.
fn is_passed(alloc: Global, bytes: &[u8]) -> bool {
    let Ok(mut sink) = SureSink::new(alloc) else {
        return false;
    };
    write_all(&mut sink, bytes).is_ok()
        && sink.bytes() == Some(bytes)
        && write_all(&mut sink, b"8").is_ok()
        && sink.bytes().is_none()
}

// Whether sinks take as many bytes as there is room for.
fn have_their_room(alloc: Global) -> bool {
    let Ok(given) = vec![in alloc; 7; 1_048_576] else {
        return false;
    };
    match read_all(alloc, &mut SureSource::new(given), 1_048_576) {
        Ok(bytes) => is_filled(alloc, &bytes) && is_passed(alloc, &bytes),
        Err(_) => false,
    }
}

#[test]
fn sinks_have_their_room(rt: HostRuntime) {
    assert!(rt; have_their_room(rt.alloc()));
}

// A device that fails at all, or at the flush, or takes nothing.
#[derive(Drop)]
struct Device {
    taken: Option<usize>,
    is_flushed: bool,
}

impl Read for Device {
    fn read(&mut self, _buf: &mut [u8]) -> io::Result<usize> {
        Err(io::Error::from(ErrorKind::Other))
    }
}

impl Write for Device {
    fn write(&mut self, buf: &[u8]) -> io::Result<usize> {
        match self.taken {
            Some(most) => Ok(most.min(buf.len())),
            None => Err(io::Error::from(ErrorKind::Other)),
        }
    }

    fn flush(&mut self) -> io::Result<()> {
        if self.is_flushed {
            Ok(())
        } else {
            Err(io::Error::from(ErrorKind::Other))
        }
    }
}

// Whether a device takes a whole text.
fn takes_all(taken: Option<usize>, is_flushed: bool) -> bool {
    let device = Device { taken, is_flushed };
    write_all(&mut Writing::new(device), first_path_journal()).is_ok()
}

// Whether a device that fails at all is read to its end.
fn is_read(alloc: Global) -> bool {
    let broken = Device {
        taken: None,
        is_flushed: true,
    };
    read_all(alloc, &mut Reading::new(broken), 49).is_ok()
}

#[test]
fn the_adapters_count_faults(rt: HostRuntime) {
    assert!(rt; !takes_all(None, true));
    assert!(rt; !takes_all(Some(9), false));
    assert!(rt; !takes_all(Some(0), true));
    assert!(rt; takes_all(Some(9), true));
    assert!(rt; !is_read(rt.alloc()));
}

// Whether the adapters write a text and read it as it is.
fn is_handed_on(alloc: Global, text: &[u8]) -> bool {
    let mut written = Vec::new(alloc);
    let is_written = write_all(&mut Writing::new(&mut written), text).is_ok();
    match read_all(alloc, &mut Reading::new(written.as_slice()), 49) {
        Ok(bytes) => is_written && bytes.as_slice() == text,
        Err(_) => false,
    }
}

#[test]
fn the_adapters_hand_bytes_on(rt: HostRuntime) {
    assert!(rt; is_handed_on(rt.alloc(), first_path_journal()));
}
