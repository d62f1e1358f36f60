//! Lines of a table in each form.

ghost use Rattle.std.specs.Prelude.{◌≡◌, ◌<◌, ◌^◌, ◌++◌, ◌∷◌, [], OnOk, codes};
ghost use Rattle.std.specs.Io.KnownBytes.{Appends};
ghost use Rattle.std.specs.Net.Text.{ip_text};
ghost use Rattle.address_text.specs.Texts.{address_text, width};
ghost use Rattle.address_rows.specs.Blocks.{Fits};
ghost use Rattle.address_rows.specs.Forms.{block_line, block_text, end_text, ends_text, family_closing, family_opening, opening, text_before, text_behind};

use crate::forms::Form;
use address_text::Family;
use std::io::{self, Write};
use std::net::{IpAddr, Ipv4Addr, Ipv6Addr};

/// Addresses that have one value, by their bits.
#[derive(Clone, Copy)]
pub enum Block {
    /// Those of a prefix: the first, the last, and how many bits they share.
    Prefix(u128, u128, u8),
    /// Those from the first to the last.
    Range(u128, u128),
}

/// The address with these bits.
#[tactic(auto, unfolding(std::specs::Net::Addr::IsIpv4OfBits, std::specs::Net::Addr::IsIpv6OfBits))]
fn address(family: Family, bits: u128) -> IpAddr
    requires { bits < 2 ^ width family }
    ensures { ip_text result ≡ address_text family bits }
{
    match family {
        Family::V4 => IpAddr::V4(Ipv4Addr::from_bits(bits as u32)),
        Family::V6 => IpAddr::V6(Ipv6Addr::from_bits(bits)),
    }
}

fn write_block<W: Write>(family: Family, block: Block, out: &mut W) -> io::Result<()>
    requires { Fits family block }
    ensures { OnOk result (Appends (W.contents out.old) (W.contents out.new)
        (block_text family block)) }
{
    match block {
        Block::Prefix(network, _, length) => {
            let network = address(family, network);
            write!(out, "{network}/{length}")
        }
        Block::Range(first, last) if first == last => {
            let first = address(family, first);
            write!(out, "{first}")
        }
        Block::Range(first, last) => {
            let first = address(family, first);
            let last = address(family, last);
            write!(out, "{first}-{last}")
        }
    }
}

/// Writes an address: of IPv4 as a number.
fn write_end<W: Write>(family: Family, bits: u128, out: &mut W) -> io::Result<()>
    requires { bits < 2 ^ width family }
    ensures { OnOk result (Appends (W.contents out.old) (W.contents out.new)
        (end_text family bits)) }
{
    match family {
        Family::V4 => write!(out, "{bits}"),
        Family::V6 => {
            let address = address(family, bits);
            write!(out, "{address}")
        }
    }
}

fn write_ends<W: Write>(family: Family, block: Block, out: &mut W) -> io::Result<()>
    requires { Fits family block }
    ensures { OnOk result (Appends (W.contents out.old) (W.contents out.new)
        (ends_text family block)) }
{
    let (first, last) = match block {
        Block::Prefix(network, last, _) => (network, last),
        Block::Range(first, last) => (first, last),
    };
    write_end(family, first, out)?;
    out.write_all(b",")?;
    write_end(family, last, out)
}

/// What stands before a block in JSON.
fn opening(block: Block) -> &'static [u8]
    ensures { result.now ≡ opening block }
{
    match block {
        Block::Prefix(..) => b"{\"prefix\":\"",
        Block::Range(..) => b"{\"range\":\"",
    }
}

/// Writes what stands before the value of a line.
fn write_before<W: Write>(form: Form, family: Family, block: Block, out: &mut W) -> io::Result<()>
    requires { Fits family block }
    ensures { OnOk result (Appends (W.contents out.old) (W.contents out.new)
        (text_before form family block)) }
{
    match form {
        Form::Lines | Form::Nginx => {
            write_block(family, block, out)?;
            out.write_all(b" ")
        }
        Form::Csv => {
            write_block(family, block, out)?;
            out.write_all(b",")
        }
        Form::Decimal => {
            write_ends(family, block, out)?;
            out.write_all(b",")
        }
        Form::Json => {
            out.write_all(opening(block))?;
            write_block(family, block, out)?;
            out.write_all(b"\",\"value\":")
        }
        Form::Nft => {
            out.write_all(b"\t")?;
            write_block(family, block, out)?;
            out.write_all(b" : ")
        }
    }
}

/// What stands behind the value of a line.
fn behind(form: Form) -> &'static [u8]
    ensures { result.now ≡ text_behind form }
{
    match form {
        Form::Lines | Form::Csv | Form::Decimal => b"\n",
        Form::Json => b"}\n",
        Form::Nginx => b";\n",
        Form::Nft => b",\n",
    }
}

/// Writes the line of a block and a value, which has its text in this form.
pub fn write_line<W: Write>(
    form: Form,
    family: Family,
    block: Block,
    value: &[u8],
    out: &mut W,
) -> io::Result<()>
    requires { Fits family block }
    ensures { OnOk result (Appends (W.contents out.old) (W.contents out.new)
        (block_line form family block value.now)) }
{
    write_before(form, family, block, out)?;
    out.write_all(value)?;
    out.write_all(behind(form))
}

/// What stands before the lines of a family.
pub fn family_opening(form: Form, family: Family) -> &'static [u8]
    ensures { result.now ≡ family_opening form family }
{
    match (form, family) {
        (Form::Nft, Family::V4) => b"define ipv4 = {\n",
        (Form::Nft, Family::V6) => b"define ipv6 = {\n",
        _ => b"",
    }
}

/// What stands behind them.
pub fn family_closing(form: Form) -> &'static [u8]
    ensures { result.now ≡ family_closing form }
{
    match form {
        Form::Nft => b"}\n",
        _ => b"",
    }
}
