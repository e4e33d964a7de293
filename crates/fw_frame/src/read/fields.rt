//! Numbers of a range and parts of a length, at the front of bytes.

ghost use Rattle.std.specs.Prelude.{◌≡◌, ◌<◌, ◌≤◌, ◌&&◌, IsTrue, nat_le, nat_lt, option_map};
ghost use Rattle.fw_list.specs.Numbers.{u32, within};
ghost use Rattle.fw_base.specs.Sizes.{accepted, agreements, executors};
ghost use Rattle.fw_frame.specs.Ranges.{has_length, number_fits, view_fits};
ghost use Rattle.fw_wire.specs.Reading.{FindsWhere};

use fw_base::Params;
use fw_wire::Reader;

/// A number of a range.
pub fn number(reader: &mut Reader<'_>, low: u32, high: u32) -> Option<u32>
    ensures { FindsWhere u32 (λ n. within low n high) reader.old result reader.new }
{
    let n = reader.u32()?;
    if n < low {
        return None;
    }
    if n > high {
        return None;
    }
    Some(n)
}

/// A number below a limit.
pub fn below(reader: &mut Reader<'_>, limit: u32) -> Option<u32>
    requires { 0 < limit }
    ensures { FindsWhere u32 (λ n. nat_lt n limit) reader.old result reader.new }
{
    number(reader, 0, limit - 1)
}

/// A number up to a limit.
pub fn at_most(reader: &mut Reader<'_>, high: u32) -> Option<u32>
    ensures { FindsWhere u32 (λ n. nat_le n high) reader.old result reader.new }
{
    number(reader, 0, high)
}

/// A view that begins by a change.
pub fn begun(params: &Params, reader: &mut Reader<'_>) -> Option<u32>
    requires { IsTrue (accepted params.now) }
    ensures { FindsWhere u32 (λ n. nat_lt 0 n && view_fits params.now n) reader.old result reader.new }
{
    number(reader, 1, params.views - 1)
}

/// An agreement node.
pub fn agreement(params: &Params, reader: &mut Reader<'_>) -> Option<u32>
    requires { IsTrue (accepted params.now) }
    ensures { FindsWhere u32 (λ n. nat_lt n (agreements params.now)) reader.old result reader.new }
{
    below(reader, params.agreements())
}

/// An executor.
pub fn executor(params: &Params, reader: &mut Reader<'_>) -> Option<u32>
    requires { IsTrue (accepted params.now) }
    ensures { FindsWhere u32 (λ n. nat_lt n (executors params.now)) reader.old result reader.new }
{
    below(reader, params.executors())
}

/// An agreement node, from one on.
pub fn node(params: &Params, reader: &mut Reader<'_>, least: u32) -> Option<u32>
    requires { IsTrue (accepted params.now) }
    ensures { FindsWhere u32 (λ n. nat_le least n && nat_lt n (agreements params.now)) reader.old result reader.new }
{
    number(reader, least, params.agreements() - 1)
}

/// A number of the list, from one on.
pub fn place(params: &Params, reader: &mut Reader<'_>, least: u32) -> Option<u32>
    requires { 1 ≤ least }
    ensures { FindsWhere u32 (λ n. nat_le least n && number_fits params.now n) reader.old result reader.new }
{
    number(reader, least, params.numbers)
}

/// A part of a length.
pub fn part<'a>(reader: &mut Reader<'a>, len: usize) -> Option<&'a [u8]>
    ensures { FindsWhere (λ bytes. bytes) (has_length len) reader.old (option_map (λ b. b.now) result) reader.new }
{
    reader.fixed(len)
}
