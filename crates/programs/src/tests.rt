// What is told where a stream fails: what no contract says.
use crate::commands::Command;
use crate::standard::run_between;
use std::io;
use std::io::{ErrorKind, Read, Write};
use std::test::Fail;

// Gives its bytes, and is then interrupted.
#[derive(Drop)]
struct Interrupted<'a>(&'a [u8]);

impl Read for Interrupted<'_> {
    fn read(&mut self, buf: &mut [u8]) -> io::Result<usize> {
        if self.0.is_empty() {
            return Err(io::Error::from(ErrorKind::Interrupted));
        }
        self.0.read(buf)
    }
}

// Takes nothing.
#[derive(Drop)]
struct Full;

impl Write for Full {
    fn write(&mut self, _buf: &[u8]) -> io::Result<usize> {
        Err(io::Error::from(ErrorKind::StorageFull))
    }

    fn flush(&mut self) -> io::Result<()> {
        Ok(())
    }
}

#[test]
fn listing_is_answered(rt: HostRuntime) -> Result<(), Fail> {
    let mut out = Vec::new(rt.alloc());
    run_between(Command::Twins, &mut b"opstore,1\n".as_slice(), &mut out)?;
    assert_eq!(rt; out.as_slice(), b"share,0\n".as_slice());
    Ok(())
}

#[test]
fn interrupted_input_is_not_answered(rt: HostRuntime) -> Result<(), Fail> {
    let mut out = Vec::new(rt.alloc());
    let outcome = run_between(Command::Twins, &mut Interrupted(b"opstore,1\n"), &mut out);
    let told = format!(in rt.alloc(); "{}", outcome.err().ok_or("answered")?)?;
    assert_eq!(rt; told.as_str(), "standard input: operation interrupted");
    assert!(rt; out.is_empty());
    Ok(())
}

#[test]
fn full_output_is_told(rt: HostRuntime) -> Result<(), Fail> {
    let outcome = run_between(Command::Twins, &mut b"opstore,1\n".as_slice(), &mut Full);
    let told = format!(in rt.alloc(); "{}", outcome.err().ok_or("written")?)?;
    assert_eq!(rt; told.as_str(), "standard output: no storage space");
    Ok(())
}
