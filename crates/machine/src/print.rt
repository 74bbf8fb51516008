ghost use Rattle.std.specs.Prelude.{◌≡◌, ◌≤◌, length};
ghost use Rattle.machine.specs.Console.{console, showing};
ghost use Rattle.machine.specs.Steps.{Printed};
ghost use Rattle.instructions.specs.Effects.{written};

use crate::outcome::NoSpace;
use decimal::spell;
use instructions::Text;
use port::Port;

// Shows all the bytes, for which there is space.
fn show_bytes<P: Port>(bytes: &[u8], port: &mut P)
    requires { length bytes.now ≤ (P.meaning port.old).space }
    ensures shows { console (P.meaning port.new) ≡ showing bytes.now (console (P.meaning port.old)) }
    ensures openings { (P.meaning port.new).openings ≡ (P.meaning port.old).openings }
{
    for byte in bytes {
        let _ = port.show(*byte);
    }
}

// Shows all the bytes if there is space for them.
fn print_bytes<P: Port>(bytes: &[u8], port: &mut P) -> Result<(), NoSpace>
    ensures { Printed bytes.now (P.meaning port.old) result (P.meaning port.new) }
{
    if bytes.len() > port.space() {
        return Err(NoSpace);
    }
    show_bytes(bytes, port);
    Ok(())
}

// Shows a text, if there is space for all of it.
pub(crate) fn print<P: Port>(text: Text, port: &mut P) -> Result<(), NoSpace>
    ensures { Printed (written text) (P.meaning port.old) result (P.meaning port.new) }
{
    match text {
        Text::Byte(byte) => print_bytes(&[byte], port),
        Text::Flag(true) => print_bytes(b"true", port),
        Text::Flag(false) => print_bytes(b"false", port),
        Text::Number(number) => print_bytes(spell(number).text(), port),
    }
}
