//! Words that are known.
ghost use Rattle.k_scan.specs.Pieces.{Finds, word_at};

/// The text behind a word, where the text begins with the word.
pub fn word<'a>(word: &[u8], text: &'a [u8]) -> Option<&'a [u8]>
    ensures { Finds (λ rest. rest.now) result (word_at word.now text.now) }
{
    let mut word = word;
    let mut rest = text;
    while let Some((first, later)) = word.split_first() {
        let Some((byte, behind)) = rest.split_first() else {
            return None;
        };
        if *byte != *first {
            return None;
        }
        word = later;
        rest = behind;
    }
    Some(rest)
}
