//! Laws of headers. Each function does nothing; its contract is a law that `specs/Laws.antt` defines.
//! Nothing calls the functions of this module.
ghost use Rattle.ber.specs.Laws.{NoHeaderBeginsAnother, NoElementBeginsAnother, NoWholeBeginsAnother, NoBodyBeginsAnother, HeadersHaveFewOctets, EndOfContentsIsAHeader, NoHeaderAtAFault, FaultsAreSingle, FaultsStay, TruncatedNeedsMore, HeadersWithoutDeparturesAreDer, DerHeadersHaveNoDepartures, UniversalNumbers};

fn no_header_begins_another()
    ensures { NoHeaderBeginsAnother }
{}

fn no_element_begins_another()
    ensures { NoElementBeginsAnother }
{}

fn no_whole_begins_another()
    ensures { NoWholeBeginsAnother }
{}

fn no_body_begins_another()
    ensures { NoBodyBeginsAnother }
{}

fn headers_have_few_octets()
    ensures { HeadersHaveFewOctets }
{}

fn end_of_contents_is_a_header()
    ensures { EndOfContentsIsAHeader }
{}

fn no_header_at_a_fault()
    ensures { NoHeaderAtAFault }
{}

fn faults_are_single()
    ensures { FaultsAreSingle }
{}

fn faults_stay()
    ensures { FaultsStay }
{}

fn truncated_needs_more()
    ensures { TruncatedNeedsMore }
{}

fn headers_without_departures_are_der()
    ensures { HeadersWithoutDeparturesAreDer }
{}

fn der_headers_have_no_departures()
    ensures { DerHeadersHaveNoDepartures }
{}

fn universal_numbers()
    ensures { UniversalNumbers }
{}
