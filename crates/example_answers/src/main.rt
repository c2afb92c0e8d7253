//! Prints facts about the certificate in the file mine.pem: its subject, the end of its validity,
//! its alternative names, and whether it may issue certificates.
#![tactic(auto)]

use der::DecodeBytes;
use pem::Blocks;
use std::fs;
use x509::{Certificate, ext};
use x509_names::{GeneralNameText, NameText};

fn main(rt: HostRuntime) -> anyhow::Result<()> {
    let text = fs::read(&rt, "mine.pem")?;
    for block in Blocks::new(&text) {
        let block = block?;
        let mut octets = vec![in rt.alloc(); 0; block.decoded_len()]?;
        block.decode_into(&mut octets)?;
        print_answers(&rt, &octets)?;
    }
    Ok(())
}

fn print_answers(rt: &HostRuntime, octets: &[u8]) -> anyhow::Result<()> {
    let alloc = rt.alloc();
    let fields = Certificate::from_der(alloc, octets)?.tbs_certificate;
    println!(rt; "subject: {}", NameText::new(alloc, &fields.subject))?;
    println!(rt; "ends: {}", fields.validity.not_after.date_time())?;
    if let Some(names) = fields.find_extension::<ext::SubjectAltName>(alloc)? {
        for name in names.value.iter(alloc) {
            println!(rt; "name: {}", GeneralNameText::new(alloc, &name))?;
        }
    }
    let basic = fields.find_extension::<ext::BasicConstraints>(alloc)?;
    let is_authority = basic.is_some_and(|it| it.value.ca.value().is_true());
    println!(rt; "may issue certificates: {is_authority}")?;
    Ok(())
}
