// A printer: a sink that is lent to it, and a buffer. Lines are gathered, so that many of them take one write.
ghost use Rattle.std.specs.Prelude.{◌≡◌, ◌<◌, ◌++◌, [], OnOk, MatchBool, decimal};
ghost use Rattle.text_output.specs.Output.{Prints};

use arrayvec::ArrayVec;
use decimals::write_digits;
use outside::{Failed, Sink};
use std::marker::Model;

/// In bytes. A line of 16 scans has at most 10,832 bytes.
const CAPACITY: usize = 16384;

/// A sink, and the bytes that wait to be written to it together. Without a `flush` what waits is lost in the end.
#[derive(Drop)]
pub struct Printer<'a, K: Sink> {
    sink: &'a mut K,
    buffer: ArrayVec<u8, CAPACITY>,
}

impl<'a, K: Sink> Model for Printer<'a, K> {
    ghost use Rattle.text_output.specs.Output.{Output};

    ghost Value = { Output };

    ghost view = { λ p. record {
      faults = K.faults p.sink.now;
      held = K.held p.sink.now;
      waiting = p.buffer.items;
      sink = p.sink.ghost_name;
    } };
}

impl<'a, K: Sink> Printer<'a, K> {
    /// Nothing waits yet.
    pub fn new(sink: &'a mut K) -> Self
        ensures { result ≡ record {
          faults = K.faults sink.old;
          held = K.held sink.old;
          waiting = [];
          sink = sink.entry.ghost_name;
        } }
    {
        Printer {
            sink,
            buffer: ArrayVec::new(),
        }
    }

    /// Adds bytes. What waits is written where there is no room for them, and they are then written by themselves.
    #[inline(always)]
    pub fn put(&mut self, bytes: &[u8]) -> Result<(), Failed>
        ensures { Prints self.old self.new bytes.now result }
    {
        if self.gather(bytes) {
            return Ok(());
        }
        self.write_past(bytes)
    }

    // Writes what waits, and then the bytes by themselves.
    #[inline(never)]
    fn write_past(&mut self, bytes: &[u8]) -> Result<(), Failed>
        ensures { Prints self.old self.new bytes.now result }
    {
        self.flush()?;
        self.sink.write(bytes)
    }

    /// Adds a number in decimal. Most are workers, epochs and values of one digit.
    #[inline(always)]
    pub fn put_number(&mut self, n: u64) -> Result<(), Failed>
        ensures { Prints self.old self.new (decimal n) result }
    {
        if n < 10 {
            return self.put_digit(n);
        }
        self.put_digits(n)
    }

    // A number of one digit.
    #[inline(always)]
    fn put_digit(&mut self, n: u64) -> Result<(), Failed>
        requires { n < 10 }
        ensures { Prints self.old self.new (decimal n) result }
    {
        let digit = [b'0' + n as u8];
        self.put(&digit)
    }

    // A number of any length.
    #[inline(never)]
    fn put_digits(&mut self, n: u64) -> Result<(), Failed>
        ensures { Prints self.old self.new (decimal n) result }
    {
        let mut digits = [0; 20];
        let start = write_digits(n, &mut digits);
        self.put(&digits[start..])
    }

    /// Writes what waits.
    pub fn flush(&mut self) -> Result<(), Failed>
        ensures prints { Prints self.old self.new [] result }
        ensures empty { OnOk result (self.new.waiting ≡ []) }
    {
        self.sink.write(self.buffer.as_slice())?;
        self.buffer.clear();
        Ok(())
    }

    /// The sink, as it is: what waits is lost. Whoever promises something of a sink takes it back by this call.
    pub fn into_sink(self) -> &'a mut K
        ensures same { result.ghost_name ≡ self.entry.sink }
        ensures faults { K.faults result.now ≡ self.entry.faults }
        ensures held { K.held result.now ≡ self.entry.held }
    {
        let Printer { sink, buffer: _ } = self;
        sink
    }

    /// Adds bytes where there is room for all of them, and answers whether there was.
    #[inline(always)]
    fn gather(&mut self, bytes: &[u8]) -> bool
        ensures { MatchBool result (self.new ≡ record self.old { waiting = self.old.waiting ++ bytes.now })
            (self.new ≡ self.old) }
    {
        self.buffer.try_extend_from_slice(bytes).is_ok()
    }
}
