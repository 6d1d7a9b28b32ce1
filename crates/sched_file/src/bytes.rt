// Pieces of a text.
ghost use Rattle.std.specs.Prelude.{◌≡◌, ◌≤◌, length, MatchOption, Some, None};
ghost use Rattle.std.specs.Str.{bytes_eq};
ghost use Rattle.sched_file.specs.Bytes.{up_to, length_before};

// What stands before the first such byte, and what follows it.
pub fn split_at_byte(text: &[u8], stop: u8) -> Option<(&[u8], &[u8])>
    ensures { MatchOption result (up_to stop text.now ≡ None) (λ r. up_to stop text.now ≡ Some (r.0.now, r.1.now)) }
{
    let at = length_before_byte(text, stop);
    if at == text.len() {
        return None;
    }
    let (before, rest) = text.split_at(at);
    Some((before, rest.split_at(1).1))
}

fn length_before_byte(text: &[u8], stop: u8) -> usize
    ensures len { result ≡ length_before stop text.now }
    ensures bound { result ≤ length text.now }
{
    let mut len = 0;
    let mut rest = text;
    while let [byte, after @ ..] = rest {
        if *byte == stop {
            return len;
        }
        len += 1;
        rest = after;
    }
    len
}

// Whether the bytes are that text.
pub fn is(word: &[u8], text: &str) -> bool
    ensures { result ≡ bytes_eq word.now text.now }
{
    word == text.as_bytes()
}
