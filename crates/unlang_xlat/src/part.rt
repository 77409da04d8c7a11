//! The parts of an expansion.

use rad_outside::Octets;
use sqlite_items::{Boxed, Items};
use unlang_reference::Reference;

/// What a letter behind `%` says of the request's moment, in UTC.
#[derive(Clone, Copy, Debug, PartialEq, Eq)]
pub enum DatePart {
    /// `%Y`: the year in four digits.
    Year,
    /// `%m`: the month in two digits, from 01.
    Month,
    /// `%d`: the day of the month in two digits, from 01.
    Day,
    /// `%H`: the hour in two digits, from 00.
    Hour,
    /// `%D`: year, month and day as `YYYYMMDD`.
    Date,
    /// `%l`: the seconds since 1970 in decimal.
    Seconds,
    /// `%t`: as `Thu Jan  1 00:16:40 1970`.
    Stamp,
}

/// A function of a text.
#[derive(Clone, Copy, Debug, PartialEq, Eq)]
pub enum Function {
    /// `tolower`: ASCII capitals made small.
    Lower,
    /// `toupper`: small ASCII letters made capitals.
    Upper,
    /// `md5`: the digest of RFC 1321, in 32 lower-case hexadecimal digits.
    Digest,
    /// `strlen`: how many octets the text has, in decimal.
    Length,
}

/// A part of an expansion, after unlang(5).
#[derive(Debug, Drop)]
pub enum Part {
    /// Plain text.
    Plain(Octets),
    /// `%%`: a percent sign.
    Percent,
    /// `%Y`, `%m`, `%d`, `%H`, `%D`, `%l` or `%t`.
    Date(DatePart),
    /// `%{[list:]Attr[place]}`: the text of the values that the reference names.
    Reference(Reference),
    /// `%{0}` to `%{8}`: what the last pattern that was looked for captured.
    Capture(u8),
    /// `%{Foreach-Variable-0}` to `%{Foreach-Variable-7}`: the value of a loop, 0 the outermost.
    Loop(u8),
    /// `%{Packet-Src-IP-Address}`: the address of who sent the request.
    Source,
    /// `%{Packet-Src-IPv6-Address}`, which is always empty.
    NoSource,
    /// `%{%{A}:-B}`: the first part's text, or the second's where the first is empty.
    Alternative(Boxed<Part>, Boxed<Part>),
    /// `%{NAME:x}`: a function of the text of parts.
    Call(Function, Items<Part>),
}
