//! The texts of many characters.
ghost use Rattle.std.specs.Prelude.{◌≡◌, ◌≤◌, ◌/◌, ◌%◌, ◌∷◌, [], length, take};
ghost use Rattle.std.specs.List.{flat_map};
ghost use Rattle.rio_chars.specs.CharText.{char_text_of, spaced_chars};
ghost use Rattle.rio_chars.specs.HexText.{hex_digit as hex_digit_of};

use crate::{Char, char_text};

/// The most data characters whose texts are written at once: more than a packet has.
pub(crate) const RUN: usize = 512;

/// The text of each data character behind a space, its first byte lowest.
const DATA_TEXTS: [u32; 256] = [
    0x30306420, 0x31306420, 0x32306420, 0x33306420, 0x34306420, 0x35306420, 0x36306420, 0x37306420,
    0x38306420, 0x39306420, 0x61306420, 0x62306420, 0x63306420, 0x64306420, 0x65306420, 0x66306420,
    0x30316420, 0x31316420, 0x32316420, 0x33316420, 0x34316420, 0x35316420, 0x36316420, 0x37316420,
    0x38316420, 0x39316420, 0x61316420, 0x62316420, 0x63316420, 0x64316420, 0x65316420, 0x66316420,
    0x30326420, 0x31326420, 0x32326420, 0x33326420, 0x34326420, 0x35326420, 0x36326420, 0x37326420,
    0x38326420, 0x39326420, 0x61326420, 0x62326420, 0x63326420, 0x64326420, 0x65326420, 0x66326420,
    0x30336420, 0x31336420, 0x32336420, 0x33336420, 0x34336420, 0x35336420, 0x36336420, 0x37336420,
    0x38336420, 0x39336420, 0x61336420, 0x62336420, 0x63336420, 0x64336420, 0x65336420, 0x66336420,
    0x30346420, 0x31346420, 0x32346420, 0x33346420, 0x34346420, 0x35346420, 0x36346420, 0x37346420,
    0x38346420, 0x39346420, 0x61346420, 0x62346420, 0x63346420, 0x64346420, 0x65346420, 0x66346420,
    0x30356420, 0x31356420, 0x32356420, 0x33356420, 0x34356420, 0x35356420, 0x36356420, 0x37356420,
    0x38356420, 0x39356420, 0x61356420, 0x62356420, 0x63356420, 0x64356420, 0x65356420, 0x66356420,
    0x30366420, 0x31366420, 0x32366420, 0x33366420, 0x34366420, 0x35366420, 0x36366420, 0x37366420,
    0x38366420, 0x39366420, 0x61366420, 0x62366420, 0x63366420, 0x64366420, 0x65366420, 0x66366420,
    0x30376420, 0x31376420, 0x32376420, 0x33376420, 0x34376420, 0x35376420, 0x36376420, 0x37376420,
    0x38376420, 0x39376420, 0x61376420, 0x62376420, 0x63376420, 0x64376420, 0x65376420, 0x66376420,
    0x30386420, 0x31386420, 0x32386420, 0x33386420, 0x34386420, 0x35386420, 0x36386420, 0x37386420,
    0x38386420, 0x39386420, 0x61386420, 0x62386420, 0x63386420, 0x64386420, 0x65386420, 0x66386420,
    0x30396420, 0x31396420, 0x32396420, 0x33396420, 0x34396420, 0x35396420, 0x36396420, 0x37396420,
    0x38396420, 0x39396420, 0x61396420, 0x62396420, 0x63396420, 0x64396420, 0x65396420, 0x66396420,
    0x30616420, 0x31616420, 0x32616420, 0x33616420, 0x34616420, 0x35616420, 0x36616420, 0x37616420,
    0x38616420, 0x39616420, 0x61616420, 0x62616420, 0x63616420, 0x64616420, 0x65616420, 0x66616420,
    0x30626420, 0x31626420, 0x32626420, 0x33626420, 0x34626420, 0x35626420, 0x36626420, 0x37626420,
    0x38626420, 0x39626420, 0x61626420, 0x62626420, 0x63626420, 0x64626420, 0x65626420, 0x66626420,
    0x30636420, 0x31636420, 0x32636420, 0x33636420, 0x34636420, 0x35636420, 0x36636420, 0x37636420,
    0x38636420, 0x39636420, 0x61636420, 0x62636420, 0x63636420, 0x64636420, 0x65636420, 0x66636420,
    0x30646420, 0x31646420, 0x32646420, 0x33646420, 0x34646420, 0x35646420, 0x36646420, 0x37646420,
    0x38646420, 0x39646420, 0x61646420, 0x62646420, 0x63646420, 0x64646420, 0x65646420, 0x66646420,
    0x30656420, 0x31656420, 0x32656420, 0x33656420, 0x34656420, 0x35656420, 0x36656420, 0x37656420,
    0x38656420, 0x39656420, 0x61656420, 0x62656420, 0x63656420, 0x64656420, 0x65656420, 0x66656420,
    0x30666420, 0x31666420, 0x32666420, 0x33666420, 0x34666420, 0x35666420, 0x36666420, 0x37666420,
    0x38666420, 0x39666420, 0x61666420, 0x62666420, 0x63666420, 0x64666420, 0x65666420, 0x66666420,
];

/// Makes the texts of the data characters at the front, each behind a space, one in each word, as
/// far as there are words. Answers how many they are.
pub(crate) fn write_words(words: &mut [[u8; 4]], chars: &[Char]) -> usize
    ensures within { result ≤ length chars.now }
    ensures most { result ≤ length words.new }
    ensures text { flat_map (λ word. word) (take result words.new)
        ≡ spaced_chars (take result chars.now) }
{
    let most = chars.len().min(words.len());
    for i in write_fours(words, chars, most)..most {
        let Char::Data(byte) = chars[i] else {
            return i;
        };
        words[i] = data_word(byte);
    }
    most
}

/// Makes the texts of the data characters at the front, four at a time, up to a number of them.
/// Answers how many they are.
fn write_fours(words: &mut [[u8; 4]], chars: &[Char], most: usize) -> usize
    requires chars { most ≤ length chars.now }
    requires words { most ≤ length words.old }
    ensures most { result ≤ most }
    ensures len { length words.new ≡ length words.old }
    ensures text { flat_map (λ word. word) (take result words.new)
        ≡ spaced_chars (take result chars.now) }
{
    let mut i = 0;
    while most - i >= 4 {
        let (Char::Data(a), Char::Data(b), Char::Data(c), Char::Data(d)) = (
            chars[i],
            chars[i + 1],
            chars[i + 2],
            chars[i + 3],
        ) else {
            return i;
        };
        words[i] = data_word(a);
        words[i + 1] = data_word(b);
        words[i + 2] = data_word(c);
        words[i + 3] = data_word(d);
        i += 4;
    }
    i
}

/// The text of a data character behind a space.
#[inline(always)]
fn data_word(byte: u8) -> [u8; 4]
    ensures { result ≡ 32 ∷ 100 ∷ hex_digit_of (byte / 16) ∷ hex_digit_of (byte % 16) ∷ [] }
{
    DATA_TEXTS[usize::from(byte)].to_le_bytes()
}

/// The text of a character behind a space, in the first four bytes.
pub(crate) fn spaced_char(c: Char) -> [u8; 8]
    ensures { take 4 result ≡ 32 ∷ char_text_of c }
{
    let [kind, high, low] = char_text(c);
    [b' ', kind, high, low, 0, 0, 0, 0]
}
