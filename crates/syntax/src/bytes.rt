ghost use Rattle.std.specs.Prelude.{◌≡◌, ℕ, ◌≤◌, Bool, length, take, drop};
ghost use Rattle.syntax.specs.Bytes.{plain, starts, continues, blank, front, after};

// May the byte stand in a line?
pub(crate) fn is_plain(byte: u8) -> bool
    ensures { result ≡ plain byte }
{
    matches!(byte, b'\t' | b' '..=b'~')
}

// May the byte begin a name?
// Stays: a rule of the project asks for a match of character literals and ranges for the bytes that begin a label.
pub(crate) fn starts_name(byte: u8) -> bool
    ensures { result ≡ starts byte }
{
    match char::from(byte) {
        'a'..='z' | 'A'..='Z' | '_' | '$' | '@' => true,
        _ => false,
    }
}

// May the byte stand in a name?
pub(crate) fn continues_name(byte: u8) -> bool
    ensures { result ≡ continues byte }
{
    starts_name(byte) || byte.is_ascii_digit()
}

pub(crate) fn is_blank(byte: u8) -> bool
    ensures { result ≡ blank byte }
{
    matches!(byte, b' ' | b'\t')
}

// How many bytes stand at the front for which the closure answers true.
pub(crate) fn run_len<F: Fn(u8) -> bool>(line: &[u8], passes: F) -> usize
    requires { F.IsAlwaysCallable passes }
    ensures within { result ≤ length line.now }
    ensures run { (p : ℕ → Bool) → ((byte : ℕ) (r : Bool) → F.post passes byte r → r ≡ p byte) → (take result line.now ≡ front p line.now) × (drop result line.now ≡ after p line.now) }
{
    line.iter().take_while(|byte| passes(**byte)).count()
}
