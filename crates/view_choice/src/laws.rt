//! Laws of the choice, most of them over views of any kind: each function proves the statement that its contract names,
//! and does nothing.
ghost use Rattle.view_choice.specs.Lawful.{GreedyGuarantee, SomeGreedyList, OneGreedyList, OneGreedyChoice};
ghost use Rattle.view_choice.specs.Lawful.{OneGreedyChoiceFor, GreedyMembers, BenefitsAddUp, BenefitsFall};
ghost use Rattle.view_choice.specs.Example.{PaperExample};

/// A greedy list for k has at least `1 - ((k - 1) / k) ^ k` of the benefit of any choice of as many candidates.
pub fn greedy_guarantee<V>()
    ensures { GreedyGuarantee V }
{}

/// There is a greedy list for each k.
pub fn some_greedy_list<V>()
    ensures { SomeGreedyList V }
{}

/// There is only one greedy list for each k, where no two views have one number.
pub fn one_greedy_list<V>()
    ensures { OneGreedyList V }
{}

/// There is only one greedy list of the views of the warehouse for each k.
pub fn one_greedy_choice()
    ensures { OneGreedyChoice }
{}

/// There is only one greedy list for some views that are asked for, for each k.
pub fn one_greedy_choice_for()
    ensures { OneGreedyChoiceFor }
{}

/// The members of a greedy list are candidates, each once.
pub fn greedy_members<V>()
    ensures { GreedyMembers V }
{}

/// The benefits of the members add up to the benefit of the whole choice.
pub fn benefits_add_up<V>()
    ensures { BenefitsAddUp V }
{}

/// A view's benefit falls as more views are chosen.
pub fn benefits_fall<V>()
    ensures { BenefitsFall V }
{}

/// The definitions give the numbers of the example in the paper that they come from.
pub fn paper_example()
    ensures { PaperExample }
{}
