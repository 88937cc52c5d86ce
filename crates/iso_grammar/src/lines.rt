//! Cuts bytes into lines.

ghost use Rattle.std.specs.Prelude.{◌≡◌, ◌<◌, ◌≤◌, ◌∷◌, length, ◌==◌};
ghost use Rattle.std.specs.List.{position};
ghost use Rattle.iso_grammar.specs.Lines.{lines, without_cr};

fn line_end(bytes: &[u8]) -> Option<usize>
    ensures { result ≡ position (λ b. b == 10) bytes.now }
{
    bytes.iter().position(|b| *b == b'\n')
}

#[tactic(auto, using(crate::proofs::LineLemmas::trim_cr, crate::proofs::LineLemmas::keep_end))]
fn trimmed(raw: &[u8]) -> &[u8]
    ensures line { result.now ≡ without_cr raw.now }
    ensures within { length result.now ≤ length raw.now }
{
    let len = raw.len();
    if len == 0 {
        return raw;
    }
    if raw[len - 1] == b'\r' {
        return &raw[..len - 1];
    }
    raw
}

/// The first line of these bytes, and the bytes behind it. Cost: the line's length.
#[tactic(auto, using(crate::proofs::LineLemmas::cut_at, crate::proofs::LineLemmas::uncut))]
pub fn first_line(bytes: &[u8]) -> (&[u8], &[u8])
    requires { 0 < length bytes.now }
    ensures line { lines bytes.now ≡ result.0.now ∷ lines result.1.now }
    ensures within { length result.0.now ≤ length bytes.now }
    ensures less { length result.1.now < length bytes.now }
{
    match line_end(bytes) {
        Some(end) => (trimmed(&bytes[..end]), &bytes[end + 1..]),
        None => (bytes, &bytes[bytes.len()..]),
    }
}
