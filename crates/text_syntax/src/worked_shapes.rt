//! The definitions, checked on small strings: each clause computes.
ghost use Rattle.std.specs.Prelude.{◌≡◌, Some, None, codes};
ghost use Rattle.text_syntax.specs.Numerals.{number_in_digits, percentage_in};

/// Leading zeros are allowed, signs and other characters are not.
pub fn numbers_are_read_from_digits()
    ensures ordinary { number_in_digits 5 65535 (codes "65535") ≡ Some 65535 }
    ensures leading_zeros { number_in_digits 5 65535 (codes "00007") ≡ Some 7 }
    ensures too_long { number_in_digits 5 65535 (codes "000007") ≡ None }
    ensures too_large { number_in_digits 5 65535 (codes "65536") ≡ None }
    ensures nothing { number_in_digits 5 65535 (codes "") ≡ None }
    ensures plus { number_in_digits 5 65535 (codes "+7") ≡ None }
    ensures blank { number_in_digits 5 65535 (codes " 7") ≡ None }
{}

pub fn percentages_end_in_a_sign()
    ensures ordinary { percentage_in (codes "33%") ≡ Some 33 }
    ensures three_digits { percentage_in (codes "007%") ≡ Some 7 }
    ensures four_digits { percentage_in (codes "0007%") ≡ None }
    ensures too_large { percentage_in (codes "101%") ≡ None }
    ensures no_digit { percentage_in (codes "%") ≡ None }
    ensures no_sign { percentage_in (codes "5") ≡ None }
    ensures two_signs { percentage_in (codes "5%%") ≡ None }
{}
