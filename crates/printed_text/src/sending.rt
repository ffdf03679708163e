//! Lines, gathered so that many go out by one write.

ghost use Rattle.std.specs.Prelude.{◌≡◌, ◌-◌, ◌%◌, ◌≤◌, [], OnOk};
ghost use Rattle.byte_streams.specs.Faults.{HasCause};
ghost use Rattle.byte_streams.specs.Streams.{Puts};
ghost use Rattle.printed_text.specs.Gathering.{Gathers, turn_steps};

use arrayvec::ArrayVec;
use byte_streams::{Failed, Sink, put};
use text_lines::Text;

/// How many bytes are gathered at most.
const ROOM: usize = 4096;

/// What was gathered goes out at each step whose number is a multiple of this.
pub const TURN: u64 = 65_536;

/// The text of lines that haven't gone out yet.
pub type Gathered = ArrayVec<u8, ROOM>;

/// Adds a line. Where there is no room for it, what was gathered goes out first.
pub fn add<K: Sink>(line: &Text, gathered: &mut Gathered, out: &mut K) -> Result<(), Failed>
    ensures text { Gathers gathered.old.items gathered.new.items (K.taken out.old) (K.taken out.new) result line.now.items }
    ensures cause { HasCause (K.faults out.old) (K.faults out.new) result }
{
    if gathered.remaining_capacity() < line.len() {
        send(gathered, out)?;
    }
    gathered.try_extend_from_slice(line).unwrap();
    Ok(())
}

/// How many steps there are behind so many, up to the next at whose number what was gathered goes out.
pub fn up_to_turn(done: u64) -> u64
    ensures value { result ≡ turn_steps - done % turn_steps }
    ensures some { 1 ≤ result }
{
    TURN - done % TURN
}

/// What was gathered goes out where it is this step's turn.
pub fn send_in_turn<K: Sink>(step: u64, gathered: &mut Gathered, out: &mut K) -> Result<(), Failed>
    ensures text { Gathers gathered.old.items gathered.new.items (K.taken out.old) (K.taken out.new) result [] }
    ensures turn { step % turn_steps ≡ 0 → OnOk result (gathered.new.items ≡ []) }
    ensures cause { HasCause (K.faults out.old) (K.faults out.new) result }
{
    if step % TURN == 0 {
        send(gathered, out)
    } else {
        Ok(())
    }
}

/// Puts what was gathered.
pub fn send<K: Sink>(gathered: &mut Gathered, out: &mut K) -> Result<(), Failed>
    ensures text { Puts (K.taken out.old) (K.taken out.new) result gathered.old.items }
    ensures empty { OnOk result (gathered.new.items ≡ []) }
    ensures cause { HasCause (K.faults out.old) (K.faults out.new) result }
{
    put(out, gathered)?;
    gathered.clear();
    Ok(())
}
