//! Laws of contents octets. Each function does nothing; its contract is a law that `specs/Laws.antt`
//! defines. Nothing calls the functions of this module.
ghost use Rattle.schema_rules.specs.Laws.{WhatDerAllowsBerAllows, BrokenIsNotDer, FirstBrokenOfDerIsBer};
ghost use Rattle.schema_rules.specs.Laws.{ContentsHaveForms, NamedBitsHaveForm, TimesWithoutFractionHaveForm};
ghost use Rattle.schema_rules.specs.Laws.{UtcTimesAreWritten, GeneralizedTimesAreWritten};

fn what_der_allows_ber_allows()
    ensures { WhatDerAllowsBerAllows }
{}

fn broken_is_not_der()
    ensures { BrokenIsNotDer }
{}

fn first_broken_of_der_is_ber()
    ensures { FirstBrokenOfDerIsBer }
{}

fn contents_have_forms()
    ensures { ContentsHaveForms }
{}

fn named_bits_have_form()
    ensures { NamedBitsHaveForm }
{}

fn times_without_fraction_have_form()
    ensures { TimesWithoutFractionHaveForm }
{}

fn utc_times_are_written()
    ensures { UtcTimesAreWritten }
{}

fn generalized_times_are_written()
    ensures { GeneralizedTimesAreWritten }
{}
