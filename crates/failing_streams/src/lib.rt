// What the programs do where a read or a write fails in mid-stream, which no clause says in full: a reader and a writer that fail,
// and tests over them. They stand apart, so that no crate is proved again for them.
#![tactic(auto)]

use std::io::{Error, Read, Result, Write};

// A reader that some signals come before, and whose reads fail from then on, or give the end where there is no errno.
#[derive(Drop)]
pub struct Failing {
    pub signals: usize,
    pub error: i32,
}

impl Read for Failing {
    fn read(&mut self, _buffer: &mut [u8]) -> Result<usize> {
        if 0 < self.signals {
            self.signals -= 1;
            return Err(Error::from_raw_os_error(4));
        }
        if self.error == 0 {
            return Ok(0);
        }
        Err(Error::from_raw_os_error(self.error))
    }
}

// A writer that takes at most three bytes a call, and fails once it holds the most.
#[derive(Drop)]
pub struct Full {
    pub held: Vec<u8>,
    pub most: usize,
}

impl Write for Full {
    fn write(&mut self, text: &[u8]) -> Result<usize> {
        let room = self.most.saturating_sub(self.held.len());
        let size = room.min(text.len()).min(3);
        if size == 0 {
            return Err(Error::from_raw_os_error(28));
        }
        self.held.extend_from_slice(&text[..size])?;
        Ok(size)
    }

    fn flush(&mut self) -> Result<()> {
        Ok(())
    }
}

#[cfg(test)]
mod tests {
    use super::{Failing, Full};
    use std::io::Read;
    use streams::Streams;

    // Its settings, the literal and a text of two lines, the first with a match.
    const SEARCH: &[u8] = b"0 0 0 0 -\nx\nax\nb\n";

    #[test]
    fn failed_read_is_not_the_end(rt: HostRuntime) {
        let failing = Failing {
            signals: 0,
            error: 5,
        };
        let mut standard = Streams {
            input: SEARCH.chain(failing),
            output: Vec::new(rt.alloc()),
            errors: Vec::new(rt.alloc()),
        };
        searching::run(&mut standard);
        assert_eq!(rt;
            standard.output.as_slice(),
            b"1 1 0 3\nfailed read\n".as_slice()
        );
        assert_eq!(rt;
            standard.errors.as_slice(),
            b"failed read, errno 5: Input/output error\n".as_slice()
        );
    }

    #[test]
    fn signal_is_no_failure(rt: HostRuntime) {
        let signals = Failing {
            signals: 2,
            error: 0,
        };
        let mut standard = Streams {
            input: SEARCH.chain(signals),
            output: Vec::new(rt.alloc()),
            errors: Vec::new(rt.alloc()),
        };
        searching::run(&mut standard);
        assert_eq!(rt;
            standard.output.as_slice(),
            b"1 1 0 3\nend 5 2 1 0\n".as_slice()
        );
        assert_eq!(rt; standard.errors.len(), 0);
    }

    #[test]
    fn failed_read_ends_a_script(rt: HostRuntime) {
        let failing = Failing {
            signals: 1,
            error: 21,
        };
        let mut standard = Streams {
            input: b"waiting\n".as_slice().chain(failing),
            output: Vec::new(rt.alloc()),
            errors: Vec::new(rt.alloc()),
        };
        replaying::play(&mut standard);
        assert_eq!(rt;
            standard.output.as_slice(),
            b"waiting 6\nfailed read\n".as_slice()
        );
        assert_eq!(rt;
            standard.errors.as_slice(),
            b"failed read, errno 21: Is a directory\n".as_slice()
        );
    }

    #[test]
    fn short_writes_go_on(rt: HostRuntime) {
        let mut to = Full {
            held: Vec::new(rt.alloc()),
            most: 100,
        };
        let mut errors = Vec::new(rt.alloc());
        assert!(rt; streams::write(&mut to, &mut errors, b"abcdefgh"));
        assert_eq!(rt; to.held.as_slice(), b"abcdefgh".as_slice());
        assert_eq!(rt; errors.len(), 0);
    }

    #[test]
    fn failed_write_is_told(rt: HostRuntime) {
        let mut to = Full {
            held: Vec::new(rt.alloc()),
            most: 4,
        };
        let mut errors = Vec::new(rt.alloc());
        assert!(rt; !streams::write(&mut to, &mut errors, b"abcdefgh"));
        assert_eq!(rt; to.held.as_slice(), b"abcd".as_slice());
        assert_eq!(rt;
            errors.as_slice(),
            b"failed write, errno 28: No space left on device\n".as_slice()
        );
    }
}
