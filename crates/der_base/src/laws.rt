//! Laws of the octets of tags, lengths, headers and indefinite-length contents, and of the order of
//! encodings. Each function does nothing; its contract is a law that `specs/Laws.antt` or
//! `specs/OrderLaws.antt` defines. Nothing calls the functions of this module.
ghost use Rattle.der_base.specs.ScanGrammar.{BodyNext, BodyFault};
ghost use Rattle.der_base.specs.HeaderGrammar.{IdentifierNext, TagNext, LengthNext, LengthFault, HeadNext, HeaderFault};
ghost use Rattle.der_base.specs.Order.{byte_order};
ghost use Rattle.der_base.specs.OrderLaws.{IsByteOrder, FrontsDecide, LengthOrderIsNumeric, HeaderOrderIsByTag, TagOrderIsNotNumeric};
ghost use Rattle.der_base.specs.Laws.{OneTagOfALabel, NoTagBeginsAnother, NoIdentifierBeginsAnother, NoLengthBeginsAnother, NoHeaderBeginsAnother, NoBodyBeginsAnother, BodiesOrFaults, NoBodyOutsideLevels, NoItemOutsideLevels, NoItemsOutsideLevels, NothingOpenOutsideLevels, BodiesAtEachLevel, PartsHaveTwoOctets, ExamplesOfParts, IsGrammar, IsBodyFault};
ghost use Rattle.der_base.specs.Tag.{IdentifierFault};
ghost use Rattle.der_base.specs.declared.error.ErrorKind.{ErrorKind};

fn one_tag_of_a_label()
    ensures { OneTagOfALabel }
{}

fn no_tag_begins_another()
    ensures { NoTagBeginsAnother }
{}

fn no_identifier_begins_another()
    ensures { NoIdentifierBeginsAnother }
{}

fn no_length_begins_another()
    ensures { NoLengthBeginsAnother }
{}

fn no_header_begins_another()
    ensures { NoHeaderBeginsAnother }
{}

fn no_body_begins_another()
    ensures { NoBodyBeginsAnother }
{}

fn identifiers_are_a_grammar()
    ensures { IsGrammar IdentifierNext IdentifierFault }
{}

fn tags_are_a_grammar()
    ensures { IsGrammar TagNext IdentifierFault }
{}

fn lengths_are_a_grammar()
    ensures { (wrong : ErrorKind) → IsGrammar LengthNext (LengthFault BodyFault wrong) }
{}

fn headers_are_a_grammar()
    ensures { IsGrammar HeadNext (HeaderFault BodyFault) }
{}

fn bodies_are_a_grammar()
    ensures { IsGrammar BodyNext (λ rules. BodyFault) }
{}

fn body_faults_are_single()
    ensures { IsBodyFault BodyFault }
{}

fn bodies_or_faults()
    ensures { BodiesOrFaults }
{}

fn no_body_outside_levels()
    ensures { NoBodyOutsideLevels }
{}

fn no_item_outside_levels()
    ensures { NoItemOutsideLevels }
{}

fn no_items_outside_levels()
    ensures { NoItemsOutsideLevels }
{}

fn nothing_open_outside_levels()
    ensures { NothingOpenOutsideLevels }
{}

fn bodies_at_each_level()
    ensures { BodiesAtEachLevel }
{}

fn parts_have_two_octets()
    ensures { PartsHaveTwoOctets }
{}

fn examples_of_parts()
    ensures { ExamplesOfParts }
{}

fn byte_order_is_total()
    ensures { IsByteOrder byte_order }
{}

fn fronts_decide()
    ensures { FrontsDecide }
{}

fn length_order_is_numeric()
    ensures { LengthOrderIsNumeric }
{}

fn header_order_is_by_tag()
    ensures { HeaderOrderIsByTag }
{}

fn tag_order_is_not_numeric()
    ensures { TagOrderIsNotNumeric }
{}
