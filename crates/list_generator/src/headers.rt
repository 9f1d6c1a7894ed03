//! Headers that are drawn.
ghost use Rattle.std.specs.Prelude.{◌≡◌, ◌≤◌, IfOk, map};
ghost use Rattle.razor_limits.specs.declared.limits.TheConstants.{GREATEST_PORT, GREATEST_PROTOCOL};
ghost use Rattle.list_generator.specs.Draws.{state_after};
ghost use Rattle.list_generator.specs.DrawnHeaders.{drawn_address, drawn_header, drawn_headers, drawn_port, drawn_protocol};

use crate::draws::Draws;
use field_boxes::Header;
use razor_limits::Memory;
use razor_limits::limits::GREATEST_PORT;
use std::alloc::Global;

/// The address 10.B.C.D, with B below 8, C below 4 and D below 16.
#[tactic(auto, unfolding(crate::specs::DrawnHeaders::drawn_address))]
fn address(number: u32) -> u32
    ensures { result ≡ drawn_address number }
{
    let network = (10 << 24) + ((number % 8) << 16);
    network + ((number / 8 % 4) << 8) + number / 32 % 16
}

/// The port of a service, 1024, the least or the greatest port, or one from 1024 to 1087.
#[tactic(auto, unfolding(crate::specs::DrawnHeaders::drawn_port))]
fn port(number: u32) -> u32
    ensures value { result ≡ drawn_port number }
    ensures port { result ≤ GREATEST_PORT }
{
    match number % 8 {
        0 => 80,
        1 => 443,
        2 => 53,
        3 => 22,
        4 => 1024,
        5 => 0,
        6 => GREATEST_PORT,
        _ => 1024 + number / 8 % 64,
    }
}

/// ICMP, TCP or UDP.
#[tactic(auto, unfolding(crate::specs::DrawnHeaders::drawn_protocol))]
fn protocol(number: u32) -> u32
    ensures value { result ≡ drawn_protocol number }
    ensures protocol { result ≤ GREATEST_PROTOCOL }
{
    match number % 4 {
        0 => 1,
        3 => 17,
        _ => 6,
    }
}

/// The next header.
fn draw_header(draws: &mut Draws) -> Header
    ensures header { result.values ≡ drawn_header draws.old.state }
    ensures state { draws.new.state ≡ state_after 5 draws.old.state }
{
    let source = address(draws.draw());
    let destination = address(draws.draw());
    let source_port = draws.draw() % 65_536;
    let destination_port = port(draws.draw());
    let protocol = protocol(draws.draw());
    Header {
        values: [source, destination, source_port, destination_port, protocol],
    }
}

/// So many headers.
pub(crate) fn draw_headers(
    alloc: Global,
    draws: &mut Draws,
    count: u32,
) -> Result<Vec<Header>, Memory>
    ensures { IfOk result (λ headers. map (λ h. h.values) headers.items ≡ drawn_headers count draws.old.state) }
{
    let mut headers = Vec::new(alloc);
    for _place in 0..count {
        headers.push(draw_header(draws))?;
    }
    Ok(headers)
}
