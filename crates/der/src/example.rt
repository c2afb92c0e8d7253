//! Example types that show how to read and write a type of your own.
mod borrowed_octets;
mod joined_octets;
mod my_byte_month;
mod owned_text;

pub use borrowed_octets::BorrowedOctets;
pub use joined_octets::JoinedOctets;
pub use my_byte_month::MyByteMonth;
pub use owned_text::OwnedText;
