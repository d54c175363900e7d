ghost use Rattle.std.specs.Prelude.{◌≡◌};
ghost use Rattle.code_walk.specs.Opcodes.{form_of, widened};

/// How an opcode's instructions end.
#[derive(Clone, Copy, Debug)]
pub enum Form {
    /// After so many bytes, the opcode among them.
    Fixed(u32),
    /// After the instruction that `wide` widens.
    Wide,
    /// After the jumps of a `tableswitch`.
    TableSwitch,
    /// After the pairs of a `lookupswitch`.
    LookupSwitch,
}

/// The table of opcodes; None exactly where no instruction has the opcode.
#[tactic(auto, unfolding(crate::specs::Opcodes::form_of))]
pub fn form_of(opcode: u8) -> Option<Form>
    ensures is { result ≡ form_of opcode }
{
    match opcode {
        0x00..=0x0F | 0x1A..=0x35 | 0x3B..=0x83 | 0x85..=0x98 => Some(Form::Fixed(1)),
        0xAC..=0xB1 | 0xBE..=0xBF | 0xC2..=0xC3 => Some(Form::Fixed(1)),
        0x10 | 0x12 | 0x15..=0x19 | 0x36..=0x3A | 0xA9 | 0xBC => Some(Form::Fixed(2)),
        0x11 | 0x13..=0x14 | 0x84 | 0x99..=0xA8 | 0xB2..=0xB8 => Some(Form::Fixed(3)),
        0xBB | 0xBD | 0xC0..=0xC1 | 0xC6..=0xC7 => Some(Form::Fixed(3)),
        0xC5 => Some(Form::Fixed(4)),
        0xB9..=0xBA | 0xC8..=0xC9 => Some(Form::Fixed(5)),
        0xC4 => Some(Form::Wide),
        0xAA => Some(Form::TableSwitch),
        0xAB => Some(Form::LookupSwitch),
        _ => None,
    }
}

/// The bytes of `wide` with the instruction that it widens; None exactly where it doesn't go before the
/// opcode.
#[tactic(auto, unfolding(crate::specs::Opcodes::widened))]
pub fn widened(opcode: u8) -> Option<u32>
    ensures is { result ≡ widened opcode }
{
    match opcode {
        0x84 => Some(6),
        0x15..=0x19 | 0x36..=0x3A | 0xA9 => Some(4),
        _ => None,
    }
}
