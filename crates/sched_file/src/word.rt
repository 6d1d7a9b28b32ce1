// The words of a line.
ghost use Rattle.std.specs.Prelude.{◌≡◌, ◌≤◌, ◌<◌, ◌∷◌, [], MatchOption, false, length};
ghost use Rattle.sched_file.specs.Words.{words_of, is_blank, run_length, begins};

// The first word and what follows it.
#[tactic(auto, using(crate::proofs::WordLemmas::first_words))]
pub fn next_word(text: &[u8]) -> Option<(&[u8], &[u8])>
    ensures { MatchOption result (words_of text.now ≡ []) (λ r. words_of text.now ≡ r.0.now ∷ words_of r.1.now) }
{
    let rest = skip_blanks(text);
    if rest.is_empty() {
        return None;
    }
    Some(rest.split_at(run_len(rest)))
}

fn skip_blanks(text: &[u8]) -> &[u8]
    ensures same { words_of result.now ≡ words_of text.now }
    ensures none { begins is_blank result.now ≡ false }
{
    let mut rest = text;
    while let [byte, after @ ..] = rest {
        if *byte != b' ' {
            return rest;
        }
        rest = after;
    }
    rest
}

// The length of the word that the text begins with.
fn run_len(text: &[u8]) -> usize
    ensures len { result ≡ run_length text.now }
    ensures bound { result ≤ length text.now }
{
    let mut len = 0;
    let mut rest = text;
    while let [byte, after @ ..] = rest {
        if *byte == b' ' {
            return len;
        }
        len += 1;
        rest = after;
    }
    len
}
