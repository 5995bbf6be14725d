// What is known of a line that isn't ended yet.
ghost use Rattle.std.specs.Prelude.{◌≡◌, ◌≢◌, ◌-◌, ◌^◌, ◌<◌, ◌≤◌, ◌==◌, ◌++◌, [], ◌∷◌, List, ℕ, min, length, MatchOption, if◌then◌else◌};
ghost use Rattle.std.specs.Str.Lines.{strip_carriage_return};
ghost use Rattle.us_mm_lines.specs.Lines.{is_skipped};
ghost use Rattle.us_mm_lines.specs.Words.{words};
ghost use Rattle.us_mm_lines.specs.States.{AreStatesOf, AreWordStates, IsPlainState, IsLineState};

use crate::lines::is_blank;
use crate::word_state::WordState;

/// What is known of the bytes behind the last line feed: whether they begin with a `%`, whether they end in a carriage
/// return or in a word, how many words there are, and the first five of these. A carriage return at the end belongs to no word.
#[derive(Clone, Copy)]
pub struct LineState {
    begun: bool,
    comment: bool,
    returned: bool,
    in_word: bool,
    count: u64,
    words: [WordState; 5],
}

impl LineState {
    /// No byte yet.
    pub fn new() -> LineState
        ensures { IsLineState result [] }
    {
        LineState {
            begun: false,
            comment: false,
            returned: false,
            in_word: false,
            count: 0,
            words: [WordState::new(); 5],
        }
    }

    /// Goes over some more bytes, among which there is no line feed.
    pub fn push_all(&mut self, bytes: &[u8])
        ensures { (rest : List ℕ) → IsLineState self.old rest → IsLineState self.new (rest ++ bytes.now) }
    {
        for b in bytes {
            self.push(*b);
        }
    }

    fn push(&mut self, b: u8)
        ensures { (rest : List ℕ) → IsLineState self.old rest → IsLineState self.new (rest ++ b ∷ []) }
    {
        self.settle();
        self.push_behind(b);
    }

    // A carriage return that doesn't end the line belongs to a word.
    fn settle(&mut self)
        ensures { (rest : List ℕ) → IsLineState self.old rest → IsPlainState self.new rest }
    {
        if !self.returned {
            return;
        }
        self.push_plain(b'\r');
    }

    // A byte behind what ends in no carriage return, or in one that is counted already.
    fn push_behind(&mut self, b: u8)
        ensures { (rest : List ℕ) → IsPlainState self.old rest → IsLineState self.new (rest ++ b ∷ []) }
    {
        if b == b'\r' {
            self.returned = true;
            return;
        }
        self.returned = false;
        self.push_plain(b);
    }

    // A byte that is no carriage return at the end.
    fn push_plain(&mut self, b: u8)
        ensures plain { (line : List ℕ) → IsPlainState self.old line → IsPlainState self.new (line ++ b ∷ []) }
        ensures returned { self.new.returned ≡ self.old.returned }
    {
        self.comment = comment_with(self.begun, self.comment, b);
        self.begun = true;
        if is_blank(b) {
            self.in_word = false;
            return;
        }
        if self.in_word {
            extend_last(&mut self.words, self.count, b);
            return;
        }
        self.in_word = true;
        begin_word(&mut self.words, self.count, b);
        self.count = self.count.saturating_add(1);
    }

    /// Whether there is no byte.
    pub fn is_empty(&self) -> bool
        ensures { (rest : List ℕ) → IsLineState self.now rest → result ≡ (length rest == 0) }
    {
        !self.begun && !self.returned
    }

    /// Whether the line that ends here is skipped where it isn't the first: a comment, or empty or of blanks alone.
    pub fn is_skipped(&self) -> bool
        ensures { (rest : List ℕ) → IsLineState self.now rest → result ≡ is_skipped (strip_carriage_return rest) }
    {
        self.comment || self.count == 0
    }

    /// The word of the line that ends here, where it has one.
    pub fn one_word(&self) -> Option<WordState>
        ensures { (rest : List ℕ) → IsLineState self.now rest → MatchOption result (length (words (strip_carriage_return rest)) ≢ 1)
            (λ s. AreStatesOf (s ∷ []) (words (strip_carriage_return rest))) }
    {
        if self.count != 1 {
            return None;
        }
        Some(self.words[0])
    }

    /// The two words of the line that ends here, where it has two.
    pub fn two_words(&self) -> Option<(WordState, WordState)>
        ensures { (rest : List ℕ) → IsLineState self.now rest → MatchOption result (length (words (strip_carriage_return rest)) ≢ 2)
            (λ s. AreStatesOf (s.0 ∷ s.1 ∷ []) (words (strip_carriage_return rest))) }
    {
        if self.count != 2 {
            return None;
        }
        Some((self.words[0], self.words[1]))
    }

    /// The three words of the line that ends here, where it has three.
    pub fn three_words(&self) -> Option<(WordState, WordState, WordState)>
        ensures { (rest : List ℕ) → IsLineState self.now rest → MatchOption result (length (words (strip_carriage_return rest)) ≢ 3)
            (λ s. AreStatesOf (s.0 ∷ s.1 ∷ s.2 ∷ []) (words (strip_carriage_return rest))) }
    {
        if self.count != 3 {
            return None;
        }
        Some((self.words[0], self.words[1], self.words[2]))
    }

    /// The five words of the line that ends here, where it has five.
    pub fn five_words(&self) -> Option<&[WordState; 5]>
        ensures { (rest : List ℕ) → IsLineState self.now rest → MatchOption result (length (words (strip_carriage_return rest)) ≢ 5)
            (λ s. (length s.now ≡ 5) × AreStatesOf s.now (words (strip_carriage_return rest))) }
    {
        if self.count != 5 {
            return None;
        }
        Some(&self.words)
    }
}

// Whether a line begins with a `%`, with one more byte behind it.
fn comment_with(begun: bool, comment: bool, b: u8) -> bool
    ensures { result ≡ if begun then comment else (b == 37) }
{
    if begun {
        return comment;
    }
    b == b'%'
}

// One more byte of the last of so many words.
fn extend_last(words: &mut [WordState], count: u64, b: u8)
    requires { length words.old ≡ 5 }
    ensures { (ws : List (List ℕ)) (w : List ℕ) → AreWordStates words.old (ws ++ w ∷ []) → count ≡ min (length (ws ++ w ∷ [])) (2 ^ 64 - 1)
        → AreWordStates words.new (ws ++ (w ++ b ∷ []) ∷ []) }
{
    if count == 0 || count > 5 {
        return;
    }
    let last = (count - 1) as usize;
    words[last] = words[last].with(b);
}

// The first byte of a word behind so many.
fn begin_word(words: &mut [WordState], count: u64, b: u8)
    requires { length words.old ≡ 5 }
    ensures { (ws : List (List ℕ)) → AreWordStates words.old ws → count ≡ min (length ws) (2 ^ 64 - 1)
        → AreWordStates words.new (ws ++ (b ∷ []) ∷ []) }
{
    if count < 5 {
        words[count as usize] = WordState::new().with(b);
    }
}
