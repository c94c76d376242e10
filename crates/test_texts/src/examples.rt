//! Outside examples of the definitions, as theorems that compute.
ghost use Rattle.std.specs.Prelude.{◌≡◌, [], ◌∷◌, codes};
ghost use Rattle.cube_model.specs.Admission.{refusal};
ghost use Rattle.cube_model.specs.Answers.{answer, answer_as_of};
ghost use Rattle.test_texts.specs.Examples.{star, facts, fact, money, customer, day, kingdom_customer, with_customers};
ghost use Rattle.test_texts.specs.Examples.{with_dates, long_shipmode, discounted_query, discounted_lines};
ghost use Rattle.test_texts.specs.Examples.{cities_query, cities_lines, profit_query, profit_lines, cube_query};
ghost use Rattle.test_texts.specs.Examples.{cube_lines, rollup_query, rollup_lines, average_query, average_lines};
ghost use Rattle.test_texts.specs.Examples.{range_query, range_lines, empty_query, ordered_query, tied_lines};
ghost use Rattle.test_texts.specs.Examples.{falling_lines};
ghost use Rattle.cube_model.specs.Validity.{invalid_cause};

use cube_model::{Agg, Axis, Fault, Measure, MemberPlace, Place};

/// A sum under conditions on an attribute, the discount and the quantity.
fn discounted_example()
    ensures { (answer discounted_query star facts).lines ≡ discounted_lines }
{}

/// Three columns, lists of texts.
fn cities_example()
    ensures { (answer cities_query star facts).lines ≡ cities_lines }
{}

/// A sum below 0.
fn profit_example()
    ensures { (answer profit_query star facts).lines ≡ profit_lines }
{}

/// Every choice of two columns, with an average.
fn cube_example()
    ensures { (answer cube_query star facts).lines ≡ cube_lines }
{}

/// Every beginning of two columns.
fn rollup_example()
    ensures { (answer rollup_query star facts).lines ≡ rollup_lines }
{}

/// Averages in lowest terms, also below 0.
fn averages_example()
    ensures { (answer average_query star facts).lines ≡ average_lines }
{}

/// A range of texts by bytes.
fn range_example()
    ensures { (answer range_query star facts).lines ≡ range_lines }
{}

/// An empty selection has no line.
fn empty_example()
    ensures { (answer empty_query star facts).lines ≡ [] }
{}

/// No fact rows, no lines.
fn no_facts_example()
    ensures { (answer discounted_query star []).lines ≡ [] }
{}

/// Lines that tie in column and aggregate go by their keys.
fn tied_order_example()
    ensures { (answer (ordered_query Agg.Count) star facts).lines ≡ tied_lines }
{}

/// Within a column's member the aggregate falls.
fn falling_order_example()
    ensures { (answer (ordered_query (Agg.Min Measure.Profit)) star facts).lines ≡ falling_lines }
{}

/// As of one batch of two, only its rows count.
fn prefix_example()
    ensures { (answer_as_of discounted_query 1 star ([] ∷ facts ∷ [])).lines ≡ [] }
{}

/// The star is valid.
fn valid_example()
    ensures { invalid_cause star ≡ None }
{}

/// A nation ALL is refused at its row.
fn reserved_example()
    ensures { invalid_cause
        (with_customers (kingdom_customer 1 ∷ customer 2 (codes "X") (codes "ALL") (codes "EUROPE") ∷ []))
        ≡ Some (Fault.ReservedMember (MemberPlace.InDimension Axis.Customer 2)) }
{}

/// A city of two nations is refused at the second.
fn two_nations_example()
    ensures { invalid_cause
        (with_customers (kingdom_customer 1 ∷ customer 2 (codes "UNITED KI1") (codes "FRANCE") (codes "EUROPE") ∷ []))
        ≡ Some (Fault.HierarchyBroken Axis.Customer 2) }
{}

/// A key that was seen is refused before any other cause of the row.
fn repeated_key_example()
    ensures { invalid_cause
        (with_customers (kingdom_customer 7 ∷ customer 7 (codes "ALL") (codes "FRANCE") (codes "EUROPE") ∷ []))
        ≡ Some (Fault.DuplicateKey Axis.Customer 2) }
{}

/// A month has one yearmonth.
fn two_yearmonths_example()
    ensures { invalid_cause
        (with_dates (day 19930105 (codes "1993") (codes "199301") (codes "Jan1993") (codes "1")
        ∷ day 19930106 (codes "1993") (codes "199301") (codes "January") (codes "1") ∷ []))
        ≡ Some (Fault.HierarchyBroken Axis.Date 2) }
{}

/// A month may have several weeks.
fn two_weeks_example()
    ensures { invalid_cause
        (with_dates (day 19930105 (codes "1993") (codes "199301") (codes "Jan1993") (codes "1")
        ∷ day 19930125 (codes "1993") (codes "199301") (codes "Jan1993") (codes "4") ∷ [])) ≡ None }
{}

/// A batch that is there already.
fn repeated_batch_example()
    ensures { refusal star (facts ∷ []) 1 facts ≡ Some Fault.Repeated }
{}

/// A batch too far ahead.
fn gap_example()
    ensures { refusal star (facts ∷ []) 3 facts ≡ Some Fault.Gap }
{}

/// The next batch.
fn admissible_example()
    ensures { refusal star (facts ∷ []) 2 facts ≡ None }
{}

/// A key that no customer has, in the second row.
fn unknown_customer_example()
    ensures { refusal star [] 1 (fact 1 1 1 1 19930105 17 1000 2 980 600 ∷ fact 2 3 2 2 19971202 24 2000 3 1940 2000
        ∷ []) ≡ Some (Fault.UnknownCustomer 2) }
{}

/// In one row the supplier comes before the part and the day.
fn unknown_supplier_example()
    ensures { refusal star [] 1 (fact 1 1 9 9 9 17 1000 2 980 600 ∷ []) ≡ Some (Fault.UnknownSupplier 1) }
{}

/// A text of 256 bytes is refused before an unknown key of an earlier row.
fn long_text_example()
    ensures { refusal star [] 1 (fact 2 3 2 2 19971202 24 2000 3 1940 2000 ∷ long_shipmode 256 ∷ [])
        ≡ Some (Fault.FieldTooLong (Place.Row 2) 17) }
{}

/// A text of 255 bytes is admissible.
fn longest_text_example()
    ensures { refusal star [] 1 (long_shipmode 255 ∷ []) ≡ None }
{}

/// A sum may reach 2 ^ 63 - 1.
fn greatest_sum_example()
    ensures { refusal star [] 1 (money 0 9223372036854775807 0 ∷ []) ≡ None }
{}

/// Absolute values are added up over all batches: the profit passes its limit, the revenue does not.
fn sum_range_example()
    ensures { refusal star ((money 0 9223372036854775807 0 ∷ []) ∷ []) 2 (money 0 0 1 ∷ [])
        ≡ Some (Fault.SumRange Measure.Profit) }
{}

/// The plain sum of these profits is 0, that of their absolute values is not.
fn absolute_sum_example()
    ensures { refusal star [] 1 (money 0 4611686018427387904 0 ∷ money 0 0 4611686018427387904 ∷ [])
        ≡ Some (Fault.SumRange Measure.Profit) }
{}

/// One less is admissible.
fn just_below_example()
    ensures { refusal star [] 1 (money 0 4611686018427387904 0 ∷ money 0 0 4611686018427387903 ∷ []) ≡ None }
{}

#[test]
fn examples_hold() {
    discounted_example();
    cities_example();
    profit_example();
    cube_example();
    rollup_example();
    averages_example();
    range_example();
    empty_example();
    no_facts_example();
    tied_order_example();
    falling_order_example();
    prefix_example();
    valid_example();
    reserved_example();
    two_nations_example();
    repeated_key_example();
    two_yearmonths_example();
    two_weeks_example();
    repeated_batch_example();
    gap_example();
    admissible_example();
    unknown_customer_example();
    unknown_supplier_example();
    long_text_example();
    longest_text_example();
    greatest_sum_example();
    sum_range_example();
    absolute_sum_example();
    just_below_example();
}
