//! What holds of numbers, characters, symbols and packets. The calls do nothing: their clauses are
//! the laws.
ghost use Rattle.std.specs.Prelude.{◌≡◌, ◌<◌, ◌≤◌, ℕ, List};
ghost use Rattle.rio_chars.specs.declared.chars.Char.{Char};
ghost use Rattle.rio_chars.specs.declared.chars.Char.TheVariants.{Invalid};
ghost use Rattle.rio_symbols.specs.Fields.{Fields, InRange};
ghost use Rattle.rio_packets.specs.Carries.{Carries};
ghost use Rattle.link_model.specs.ReadingSpelt.{symbol_chars_of, bytes_with_ack};
ghost use Rattle.library_calls.specs.declared.told.PacketHeader.{PacketHeader};
ghost use Rattle.library_calls.specs.Wires.{wire_char, char_wire};
ghost use Rattle.library_calls.specs.Headers.{Makes};
ghost use Rattle.library_calls.specs.Words.{SaySymbol, packet_told, header_told};

/// Each number below 512 is the number of its character, and any other number is that of no
/// character.
pub fn numbers_are_characters()
    ensures below { (number : ℕ) → number < 512 → char_wire (wire_char number) ≡ number }
    ensures others { (number : ℕ) → 512 ≤ number → wire_char number ≡ Invalid }
{}

/// The characters that are written for a symbol say it, and the bytes that are written for a packet
/// carry it with its ackID, and are told by the fields that it was made of.
pub fn written_words_are_read()
    ensures symbol { (symbol : Fields) → InRange symbol
        → SaySymbol (symbol_chars_of symbol) symbol }
    ensures packet { (header : PacketHeader) (ack : ℕ) (rest packet : List ℕ) → ack < 32
        → Makes header rest packet → Carries (bytes_with_ack ack packet) ack packet }
    ensures fields { (header : PacketHeader) (ack : ℕ) (rest packet : List ℕ)
        → Makes header rest packet → packet_told ack packet ≡ header_told ack header }
{}
