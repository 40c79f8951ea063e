// Numbers that go out.
ghost use Rattle.std.specs.Prelude.{◌≡◌, ◌+◌, ◌%◌, ◌++◌};
ghost use Rattle.std.specs.Fmt.{decimal, signed_decimal};
ghost use Rattle.io_edges.specs.Puts.{Puts};

use crate::puts::{put_bytes, put_plain};
use io_edges::{Sink, SinkFault};
use itoa::{Buffer, Integer};

// The last digit of a number.
#[inline(always)]
fn last_digit(n: u64) -> u8
    ensures { result ≡ 48 + n % 10 }
{
    b'0' + (n % 10) as u8
}

// Puts a number of any kind as the kit formats it, by one put.
#[inline(never)]
fn put_formatted<I: Integer, K: Sink>(n: I, sink: &mut K) -> Result<(), SinkFault>
    ensures { Puts (K.view sink.old) (K.view sink.new) (I.text n) result }
{
    let mut buffer = Buffer::new();
    put_bytes(buffer.format(n).as_bytes(), sink)
}

/// Puts a number in decimal digits, by one put. It fails as the sink does.
#[inline(never)]
pub fn put_number<K: Sink>(n: u64, sink: &mut K) -> Result<(), SinkFault>
    ensures { Puts (K.view sink.old) (K.view sink.new) (decimal n) result }
{
    if n < 10 {
        return put_bytes(&[last_digit(n)], sink);
    }
    if n < 100 {
        return put_bytes(&[last_digit(n / 10), last_digit(n)], sink);
    }
    if n < 1_000 {
        let digits = [last_digit(n / 100), last_digit(n / 10), last_digit(n)];
        return put_bytes(&digits, sink);
    }
    put_formatted(n, sink)
}

/// Puts a number of up to 128 bits in decimal digits, by one put. It fails as the sink does.
pub fn put_natural<K: Sink>(n: u128, sink: &mut K) -> Result<(), SinkFault>
    ensures { Puts (K.view sink.old) (K.view sink.new) (decimal n) result }
{
    match u64::try_from(n) {
        Ok(small) => put_number(small, sink),
        Err(_) => put_formatted(n, sink),
    }
}

/// Puts a number that may be negative in decimal digits, by one put. It fails as the sink does.
pub fn put_integer<K: Sink>(n: i128, sink: &mut K) -> Result<(), SinkFault>
    ensures { Puts (K.view sink.old) (K.view sink.new) (signed_decimal n) result }
{
    match u64::try_from(n) {
        Ok(small) => put_number(small, sink),
        Err(_) => put_formatted(n, sink),
    }
}

/// Puts a text as it is and a number right after it, in two puts. On an error first bytes of them
/// were put. Only the sink takes memory.
#[inline(always)]
pub fn put_labelled<K: Sink>(label: &str, n: u64, sink: &mut K) -> Result<(), SinkFault>
    ensures { Puts (K.view sink.old) (K.view sink.new) (label.now ++ decimal n) result }
{
    put_plain(label, sink)?;
    put_number(n, sink)
}
