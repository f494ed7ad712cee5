// What no clause says of an input that is given byte by byte: how much room each read has, and when what it brings is given. That the bytes before a read that fails are given
// is said of readers whose bytes are known, and those of the readers here are not.
use crate::{for_each_byte, for_each_byte_in_parts};
use std::cell::Cell;
use std::io;
use std::io::Read;

// Brings the bytes from 0 up to 59, ten a read. A read that has room for fewer than `least` bytes fails, and so does one behind `last` bytes.
#[derive(Drop)]
struct Tens {
    least: usize,
    last: u8,
    next: u8,
}

impl Read for Tens {
    fn read(&mut self, buf: &mut [u8]) -> io::Result<usize> {
        if buf.len() < self.least || self.last <= self.next {
            return Err(io::Error::from(io::ErrorKind::TimedOut));
        }
        if 60 <= self.next {
            return Ok(0);
        }
        let len = buf.len().min(10);
        for byte in &mut buf[..len] {
            *byte = self.next;
            self.next = self.next.saturating_add(1);
        }
        Ok(len)
    }
}

impl Tens {
    fn new(least: usize, last: u8) -> Tens {
        Tens {
            least,
            last,
            next: 0,
        }
    }
}

#[test]
fn each_read_has_room_for_a_whole_part(rt: HostRuntime) {
    let mut given = 0u8;
    let mut in_order = true;
    for_each_byte(&mut Tens::new(65536, 255), |byte| {
        in_order = in_order && byte == given;
        given = given.saturating_add(1);
    });
    assert_eq!(rt; (given, in_order), (60, true));
}

#[test]
fn what_came_before_a_read_that_fails_is_given(rt: HostRuntime) {
    let mut given = 0u8;
    for_each_byte(&mut Tens::new(1, 30), |_| given = given.saturating_add(1));
    assert_eq!(rt; given, 30);
    let mut given_in_parts = 0u8;
    for_each_byte_in_parts(
        &mut Tens::new(1, 30),
        |_| given_in_parts = given_in_parts.saturating_add(1),
    );
    assert_eq!(rt; given_in_parts, 30);
}

// Brings a byte a read, four in all, and fails where a byte that it has brought is not given yet.
#[derive(Drop)]
struct Waits<'a> {
    given: &'a Cell<u8>,
    brought: u8,
}

impl Read for Waits<'_> {
    fn read(&mut self, buf: &mut [u8]) -> io::Result<usize> {
        if self.given.get() != self.brought || buf.is_empty() {
            return Err(io::Error::from(io::ErrorKind::TimedOut));
        }
        if 4 <= self.brought {
            return Ok(0);
        }
        buf[0] = self.brought;
        self.brought = self.brought.saturating_add(1);
        Ok(1)
    }
}

impl Waits<'_> {
    fn new(given: &Cell<u8>) -> Waits<'_> {
        Waits { given, brought: 0 }
    }
}

#[test]
fn what_a_read_brings_is_given_before_the_next(rt: HostRuntime) {
    let given = Cell::new(0u8);
    for_each_byte(
        &mut Waits::new(&given),
        |_| given.set(given.get().saturating_add(1)),
    );
    assert_eq!(rt; given.get(), 4);
}

#[test]
fn a_part_is_read_whole_before_it_is_given(rt: HostRuntime) {
    let given = Cell::new(0u8);
    for_each_byte_in_parts(
        &mut Waits::new(&given),
        |_| given.set(given.get().saturating_add(1)),
    );
    assert_eq!(rt; given.get(), 1);
}
