ghost use Rattle.std.specs.Prelude.{◌≡◌, ◌≤◌, ◌<◌, ◌+◌, ◌^◌, ◌++◌, ◌∷◌, [], ℕ, List, Option, length, take, IsTrue, IfOk, OnOk, OnErr};
ghost use Rattle.std.specs.List.{flat_map};
ghost use Rattle.std.specs.Char.{digit_char};
ghost use Rattle.std.specs.Io.KnownBytes.{Appends};
ghost use Rattle.outside.specs.Causes.{HasCause};
ghost use Rattle.outside.specs.Gathered.{WrotePrefix};
ghost use Rattle.json.specs.Print.{escape, escape_byte, escape_letter};
ghost use Rattle.json_rpc.specs.Replies.{HasRun, frame_of, head_of, no_memory_reply, piece_text};

use crate::message::Id;
use itoa::Buffer;
use outside::{Failed, Sink, write_all};

/// Room for a header part: its length has at most 40 digits.
const HEAD: usize = 64;

/// A part of what is written.
#[derive(Clone, Copy)]
pub(crate) enum Piece<'a> {
    /// These bytes.
    Plain(&'a [u8]),
    /// What stands for these bytes in a JSON string.
    Escaped(&'a [u8]),
}

/// Puts bytes into a buffer from a place on, and answers the place behind them.
#[tactic(auto, using(crate::proofs::Heading::heading))]
fn put(buffer: &mut [u8], place: usize, bytes: &[u8]) -> usize
    requires room { place + length bytes.now ≤ length buffer.old }
    ensures behind { result ≡ place + length bytes.now }
    ensures holds { take result buffer.new ≡ take place buffer.old ++ bytes.now }
{
    for i in 0..bytes.len() {
        buffer[place + i] = bytes[i];
    }
    place + bytes.len()
}

/// Puts the header part of a body of so many bytes into a buffer, and answers how long it is.
#[tactic(auto, using(crate::proofs::Heading::heading), unfolding(crate::specs::Replies::head_of, crate::specs::Replies::length_mark))]
fn put_head(buffer: &mut [u8], count: u128) -> usize
    requires room { length buffer.old ≡ HEAD }
    ensures within { result ≤ HEAD }
    ensures holds { take result buffer.new ≡ head_of count }
{
    let mut digits = Buffer::new();
    let mark = put(buffer, 0, b"Content-Length: ");
    let told = put(buffer, mark, digits.format(count).as_bytes());
    put(buffer, told, b"\r\n\r\n")
}

/// The letter of a byte's short escape in JSON (RFC 8259, section 7), or 0 where it has none.
fn escape_letter(byte: u8) -> u8
    ensures { result ≡ escape_letter byte }
{
    match byte {
        b'"' | b'\\' => byte,
        8 => b'b',
        12 => b'f',
        b'\n' => b'n',
        b'\r' => b'r',
        b'\t' => b't',
        _ => 0,
    }
}

/// A digit below 16.
fn hex_digit(value: u8) -> u8
    requires { value < 16 }
    ensures { result ≡ digit_char value }
{
    if value < 10 {
        return b'0' + value;
    }
    b'a' + (value - 10)
}

/// Puts what stands for a byte in a JSON string into a buffer, and answers how long it is.
#[tactic(auto, using(crate::proofs::Pieces::escapes))]
fn put_escape(buffer: &mut [u8; 6], byte: u8) -> usize
    ensures within { result ≤ 6 }
    ensures holds { take result buffer.new ≡ escape_byte byte }
{
    let letter = escape_letter(byte);
    if letter > 0 {
        *buffer = [b'\\', letter, 0, 0, 0, 0];
        return 2;
    }
    if byte < 32 {
        let high = hex_digit(byte / 16);
        let low = hex_digit(byte % 16);
        *buffer = [b'\\', b'u', b'0', b'0', high, low];
        return 6;
    }
    *buffer = [byte, 0, 0, 0, 0, 0];
    1
}

/// Whether a byte stands for itself in a JSON string.
#[tactic(auto, using(crate::proofs::Pieces::escapes))]
fn is_plain(byte: u8) -> bool
    ensures { IsTrue result → escape_byte byte ≡ byte ∷ [] }
{
    escape_letter(byte) == 0 && byte >= 32
}

/// Goes on by the byte at i, and answers where the run begins that is to be written yet.
#[tactic(auto, using(crate::proofs::Pieces::pieces))]
fn write_next<K: Sink>(sink: &mut K, bytes: &[u8], done: usize, i: usize) -> Result<usize, Failed>
    requires order { done ≤ i }
    requires within { i < length bytes.now }
    ensures next { IfOk result (λ next. (start : Option (List ℕ)) →
        HasRun start (K.written sink.old) bytes.now done i → HasRun start (K.written sink.new) bytes.now next (i + 1)) }
    ensures prefix { OnErr result ((start : Option (List ℕ)) →
        HasRun start (K.written sink.old) bytes.now done i → WrotePrefix start (K.written sink.new) (escape bytes.now)) }
    ensures cause { HasCause (K.faults sink.old) (K.faults sink.new) result }
{
    let byte = bytes[i];
    if is_plain(byte) {
        return Ok(done);
    }
    let mut escaped = [0; 6];
    let end = put_escape(&mut escaped, byte);
    write_all(sink, &bytes[done..i])?;
    write_all(sink, &escaped[..end])?;
    Ok(i + 1)
}

/// Writes what stands for a text in a JSON string, each run of bytes that stand for themselves at once.
#[tactic(auto, using(crate::proofs::Pieces::pieces))]
fn write_escaped<K: Sink>(sink: &mut K, bytes: &[u8]) -> Result<(), Failed>
    ensures all { OnOk result (Appends (K.written sink.old) (K.written sink.new) (escape bytes.now)) }
    ensures prefix { OnErr result (WrotePrefix (K.written sink.old) (K.written sink.new) (escape bytes.now)) }
    ensures cause { HasCause (K.faults sink.old) (K.faults sink.new) result }
{
    let mut done = 0;
    for i in 0..bytes.len() {
        done = write_next(sink, bytes, done, i)?;
    }
    write_all(sink, &bytes[done..])
}

/// How many bytes stand for a byte in a JSON string.
#[tactic(auto, using(crate::proofs::Pieces::escapes))]
fn escaped_width(byte: u8) -> u128
    ensures width { result ≡ length (escape_byte byte) }
    ensures short { result ≤ 6 }
{
    if escape_letter(byte) > 0 {
        return 2;
    }
    if byte < 32 { 6 } else { 1 }
}

/// How many bytes stand for a text in a JSON string.
#[tactic(auto, using(crate::proofs::Pieces::escapes))]
fn escaped_length(bytes: &[u8]) -> u128
    ensures length { result ≡ length (escape bytes.now) }
    ensures bound { result ≤ 2 ^ 100 }
{
    let mut length = 0;
    for i in 0..bytes.len() {
        length += escaped_width(bytes[i]);
    }
    length
}

/// How many bytes these are.
fn plain_length(bytes: &[u8]) -> u128
    ensures length { result ≡ length bytes.now }
    ensures bound { result ≤ 2 ^ 100 }
{
    bytes.len() as u128
}

/// How many bytes a piece has.
fn piece_length(piece: &Piece<'_>) -> u128
    ensures length { result ≡ length (piece_text piece.now) }
    ensures bound { result ≤ 2 ^ 100 }
{
    match *piece {
        Piece::Plain(bytes) => plain_length(bytes),
        Piece::Escaped(bytes) => escaped_length(bytes),
    }
}

/// How many bytes some pieces have.
fn length_of(pieces: &[Piece<'_>]) -> u128
    requires few { length pieces.now ≤ 5 }
    ensures { result ≡ length (flat_map piece_text pieces.now) }
{
    let mut length = 0;
    for piece in pieces {
        length += piece_length(piece);
    }
    length
}

/// Writes a piece.
fn write_piece<K: Sink>(sink: &mut K, piece: &Piece<'_>) -> Result<(), Failed>
    ensures all { OnOk result (Appends (K.written sink.old) (K.written sink.new) (piece_text piece.now)) }
    ensures prefix { OnErr result (WrotePrefix (K.written sink.old) (K.written sink.new) (piece_text piece.now)) }
    ensures cause { HasCause (K.faults sink.old) (K.faults sink.new) result }
{
    match *piece {
        Piece::Plain(bytes) => write_all(sink, bytes),
        Piece::Escaped(bytes) => write_escaped(sink, bytes),
    }
}

/// Writes pieces, one after the other.
#[tactic(auto, using(crate::proofs::Pieces::pieces))]
fn write_pieces<K: Sink>(sink: &mut K, pieces: &[Piece<'_>]) -> Result<(), Failed>
    ensures all { OnOk result (Appends (K.written sink.old) (K.written sink.new) (flat_map piece_text pieces.now)) }
    ensures prefix { OnErr result (WrotePrefix (K.written sink.old) (K.written sink.new) (flat_map piece_text pieces.now)) }
    ensures cause { HasCause (K.faults sink.old) (K.faults sink.new) result }
{
    for piece in pieces {
        write_piece(sink, piece)?;
    }
    Ok(())
}

/// Writes a frame whose body is these pieces, its header part at once.
#[tactic(auto, using(crate::proofs::Pieces::pieces), unfolding(crate::specs::Replies::frame_of))]
fn write_framed<K: Sink>(sink: &mut K, body: &[Piece<'_>]) -> Result<(), Failed>
    requires few { length body.now ≤ 5 }
    ensures frame { OnOk result (Appends (K.written sink.old) (K.written sink.new) (frame_of (flat_map piece_text body.now))) }
    ensures prefix { OnErr result (WrotePrefix (K.written sink.old) (K.written sink.new) (frame_of (flat_map piece_text body.now))) }
    ensures cause { HasCause (K.faults sink.old) (K.faults sink.new) result }
{
    let mut head = [0; HEAD];
    let end = put_head(&mut head, length_of(body));
    write_all(sink, &head[..end])?;
    write_pieces(sink, body)
}

/// Writes a frame with this body, and takes no memory. After a fault a prefix of the frame is written.
pub fn write_frame<K: Sink>(sink: &mut K, body: &[u8]) -> Result<(), Failed>
    ensures frame { OnOk result (Appends (K.written sink.old) (K.written sink.new) (frame_of body.now)) }
    ensures prefix { OnErr result (WrotePrefix (K.written sink.old) (K.written sink.new) (frame_of body.now)) }
    ensures cause { HasCause (K.faults sink.old) (K.faults sink.new) result }
{
    write_framed(sink, &[Piece::Plain(body)])
}

/// Writes the frame of the reply "no memory" to this id in pieces, and takes no memory: it counts the
/// body's length first, and escapes the id as it writes. After a fault a prefix of the frame is written.
pub fn write_no_memory<K: Sink>(sink: &mut K, id: &Id) -> Result<(), Failed>
    ensures frame { OnOk result (Appends (K.written sink.old) (K.written sink.new) (frame_of (no_memory_reply id.now))) }
    ensures prefix { OnErr result (WrotePrefix (K.written sink.old) (K.written sink.new) (frame_of (no_memory_reply id.now))) }
    ensures cause { HasCause (K.faults sink.old) (K.faults sink.new) result }
{
    let before: &[u8] = b"{\"error\":{\"code\":-32803,\"message\":\"no memory\"},\"id\":";
    let quote: &[u8] = b"\"";
    let after: &[u8] = b",\"jsonrpc\":\"2.0\"}";
    match id {
        Id::Number(number) => {
            let mut digits = Buffer::new();
            let shown = digits.format(*number).as_bytes();
            write_framed(
                sink,
                &[
                    Piece::Plain(before),
                    Piece::Plain(shown),
                    Piece::Plain(after),
                ],
            )
        }
        Id::Text(text) => write_framed(
            sink,
            &[
                Piece::Plain(before),
                Piece::Plain(quote),
                Piece::Escaped(text.as_bytes()),
                Piece::Plain(quote),
                Piece::Plain(after),
            ],
        ),
    }
}
