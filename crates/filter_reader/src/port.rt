//! The port columns of a rule line.
ghost use Rattle.std.specs.Prelude.{◌≡◌, IfOk};
ghost use Rattle.field_boxes.specs.Ports.{ArePorts};
ghost use Rattle.filter_reader.specs.Headline.Columns.{port_column};
ghost use Rattle.filter_reader.specs.Headline.Tokens.{tokens};
ghost use Rattle.filter_reader.specs.Views.{column_by};

use crate::ranges::{only_range, read_ranges};
use crate::reason::Reason;
use field_boxes::Ports;

/// The ports in one of the ranges that the line begins with.
///
/// Most columns have one range, whose ports need no union.
#[tactic(auto, unfolding(crate::specs::Headline::Columns::port_column))]
pub fn port_column(line: &[u8]) -> Result<(Ports, &[u8]), Reason>
    ensures read { column_by (λ ports. ports) result ≡ port_column (tokens line.now) }
    ensures ports { IfOk result (λ column. ArePorts column.0) }
{
    let Some((range, rest)) = only_range(line) else {
        return united_column(line);
    };
    let ports = range.ports()?;
    Ok((ports, rest))
}

/// The same of any ranges.
#[tactic(auto, unfolding(crate::specs::Headline::Columns::port_column))]
fn united_column(line: &[u8]) -> Result<(Ports, &[u8]), Reason>
    ensures read { column_by (λ ports. ports) result ≡ port_column (tokens line.now) }
    ensures ports { IfOk result (λ column. ArePorts column.0) }
{
    let Some((ranges, rest)) = read_ranges(line) else {
        return Err(Reason::PortForm);
    };
    let ports = ranges.ports()?;
    Ok((ports, rest))
}
