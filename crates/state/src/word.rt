// The question that the Rust asks of a word by an iterator. Its other one, whether some byte is a value, is a search (byte_search).
ghost use Rattle.std.specs.Prelude.{◌≡◌};
ghost use Rattle.state.specs.Magic.{throughout};

// Whether each byte of a word is `value`.
pub fn all_are(word: &[u8], value: u8) -> bool
    ensures { result ≡ throughout value word.now }
{
    word.iter().all(|byte| *byte == value)
}
