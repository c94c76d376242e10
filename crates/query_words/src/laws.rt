//! Laws of words.
ghost use Rattle.query_words.specs.Laws.{SpellOneQuery};

/// Words spell at most one query.
pub fn words_spell_one_query()
    ensures { SpellOneQuery }
{}
