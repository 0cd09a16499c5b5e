//! The words that a call knows.
ghost use Rattle.std.specs.Prelude.{◌≡◌, ◌↔◌, ◌∷◌, [], None, Some, IsTrue};
ghost use Rattle.ix_main.specs.Words.{HaveForm, check_words, replay_words};

use ix_types::Seq;

/// What words ask for.
#[derive(Clone, Copy, Debug, Drop, PartialEq, Eq)]
pub(crate) enum Form {
    /// A script is read, replayed over the directory, and its transcript written.
    Replay,
    /// What opening the store would find is written.
    Check,
}

/// What the words ask for, where the call knows them.
pub(crate) fn form_of(words: &Seq<Seq<u8>>) -> Option<Form>
    ensures replay { (result ≡ Some Form.Replay) ↔ (words.now ≡ replay_words) }
    ensures check { (result ≡ Some Form.Check) ↔ (words.now ≡ check_words) }
    ensures none { result ≡ None → ¬ HaveForm words.now }
{
    if is_alone(words, b"replay") {
        Some(Form::Replay)
    } else if is_alone(words, b"check") {
        Some(Form::Check)
    } else {
        None
    }
}

/// Whether there is one word, and it is this one.
fn is_alone(words: &Seq<Seq<u8>>, wanted: &[u8]) -> bool
    ensures { IsTrue result ↔ (words.now ≡ wanted.now ∷ []) }
{
    match words.as_slice() {
        [word] => is_word(word, wanted),
        _ => false,
    }
}

/// Whether the word is this one.
fn is_word(word: &Seq<u8>, wanted: &[u8]) -> bool
    ensures { IsTrue result ↔ (word.now ≡ wanted.now) }
{
    word.as_slice() == wanted
}
