// A reader that is slow, fails or never ends, and what is read of it.
use crate::StoreFault;
use crate::real::read_to_end;
use std::io;
use std::io::{Error, ErrorKind, Read};
use std::test::Fail;

/// Reads one byte at a time, after one interruption, and fails at the end.
#[derive(Drop)]
struct Slow {
    calls: usize,
    end: usize,
}

impl Slow {
    fn new(end: usize) -> Slow {
        Slow { calls: 0, end }
    }

    /// The number of the byte that is next.
    fn next(&mut self) -> io::Result<usize> {
        self.calls = self.calls.saturating_add(1);
        if self.calls == 1 {
            return Err(Error::from(ErrorKind::Interrupted));
        }
        if self.calls - 2 < self.end {
            Ok(self.calls - 2)
        } else {
            Err(Error::from(ErrorKind::BrokenPipe))
        }
    }
}

impl Read for Slow {
    fn read(&mut self, buf: &mut [u8]) -> io::Result<usize> {
        let at = self.next()?;
        if at < 4 && !buf.is_empty() {
            buf[0] = b'x';
            Ok(1)
        } else {
            Ok(0)
        }
    }
}

#[test]
fn a_reader_is_read_to_its_end(rt: HostRuntime) -> Result<(), Fail> {
    assert_eq!(rt;
        read_to_end(&mut Slow::new(9), rt.alloc())?.as_slice(),
        b"xxxx".as_slice()
    );
    assert_eq!(rt;
        read_to_end(&mut Slow::new(2), rt.alloc()).err(),
        Some(StoreFault::Failed)
    );
    assert_eq!(rt;
        read_to_end(&mut io::repeat(b'x'), rt.alloc()).err(),
        Some(StoreFault::TooLong)
    );
    let most = read_to_end(&mut io::repeat(b'x').take(67_108_864), rt.alloc())?;
    assert_eq!(rt; most.len(), 67_108_864);
    Ok(())
}
