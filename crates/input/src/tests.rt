use crate::read_full;
use std::io;
use std::io::{ErrorKind, Read};
use std::test::Fail;

// Gives the bytes 1, 2 .. one by one, to 200; in place of the byte behind `fails` an error.
#[derive(Drop)]
struct Slow {
    given: u8,
    fails: u8,
}

impl Read for Slow {
    fn read(&mut self, buf: &mut [u8]) -> io::Result<usize> {
        if self.given == self.fails {
            return Err(io::Error::from(ErrorKind::WouldBlock));
        }
        if self.given >= 200 || buf.is_empty() {
            return Ok(0);
        }
        self.given += 1;
        buf[0] = self.given;
        Ok(1)
    }
}

// Gives a byte, then none, then a byte again.
#[derive(Drop)]
struct Pausing {
    rests: bool,
}

impl Read for Pausing {
    fn read(&mut self, buf: &mut [u8]) -> io::Result<usize> {
        let rests = self.rests;
        self.rests = !rests;
        if rests || buf.is_empty() {
            return Ok(0);
        }
        buf[0] = 7;
        Ok(1)
    }
}

#[test]
fn reads_up_to_the_end_or_until_the_buffer_is_full(rt: HostRuntime) -> Result<(), Fail> {
    let bytes = [7u8, 8, 9];
    let mut buf = [0u8; 5];
    assert_eq!(rt; read_full(&mut &bytes[..], &mut buf)?, 3);
    assert_eq!(rt; buf, [7, 8, 9, 0, 0]);
    assert_eq!(rt; read_full(&mut &bytes[..], &mut buf[..2])?, 2);
    assert_eq!(rt; read_full(&mut &bytes[..], &mut [])?, 0);
    assert_eq!(rt; read_full(&mut &[0u8; 0][..], &mut buf)?, 0);

    let mut slow = Slow {
        given: 0,
        fails: 255,
    };
    assert_eq!(rt; read_full(&mut slow, &mut buf)?, 5);
    assert_eq!(rt; buf, [1, 2, 3, 4, 5]);
    assert_eq!(rt; slow.given, 5);
    let mut long = [0u8; 300];
    assert_eq!(rt; read_full(&mut slow, &mut long)?, 195);
    assert_eq!(rt; [long[0], long[194], long[195]], [6, 200, 0]);

    let mut pausing = Pausing { rests: false };
    assert_eq!(rt; read_full(&mut pausing, &mut buf)?, 1);
    Ok(())
}

#[test]
fn an_error_of_the_input_is_the_answer(rt: HostRuntime) {
    let mut buf = [0u8; 5];
    let mut slow = Slow { given: 0, fails: 3 };
    let answer = read_full(&mut slow, &mut buf);
    assert!(rt; matches!(answer, Err(e) if e.kind() == ErrorKind::WouldBlock));
    assert_eq!(rt; buf, [1, 2, 3, 0, 0]);
}
