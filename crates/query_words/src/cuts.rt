//! Words that are cut at a sign.
ghost use Rattle.std.specs.Prelude.{◌<◌, MatchOption};
ghost use Rattle.query_words.specs.Cuts.{HasNeither, IsCut};

/// What is before the first of two ASCII signs in a word, that sign, and what is after it; nothing where neither is in
/// it.
pub fn cut(word: &str, one: char, other: char) -> Option<(&str, char, &str)>
    requires one_byte { one < 128 }
    requires other_byte { other < 128 }
    ensures { MatchOption result (HasNeither one other word.now)
        (λ cut. IsCut one other word.now cut.0.now cut.1 cut.2.now) }
{
    match (word.split_once(one), word.split_once(other)) {
        (None, None) => None,
        (Some((name, rest)), None) => Some((name, one, rest)),
        (None, Some((name, rest))) => Some((name, other, rest)),
        (Some((name, rest)), Some((longer, tail))) => {
            if name.len() < longer.len() {
                Some((name, one, rest))
            } else {
                Some((longer, other, tail))
            }
        }
    }
}
