// The members of a collection, a line each. They stand in the collection table as rows of two numbers.
#![tactic(auto)]

ghost use Rattle.texts.specs.Append.{Wrote};
ghost use Rattle.members.specs.Member.{component_text, feature_text, port_text, diagnostic_text, member_text};

use board::image;
use calls::value::Value;
use matching::value::Direction;
use texts::Writer;

// The words for the numbers of a board, in the order of the numbers.
const CATEGORIES: [&[u8]; 14] = [
    b"system",
    b"process",
    b"thread",
    b"thread_group",
    b"processor",
    b"virtual_processor",
    b"memory",
    b"bus",
    b"virtual_bus",
    b"device",
    b"subprogram",
    b"subprogram_group",
    b"data",
    b"abstract",
];

const FEATURE_KINDS: [&[u8]; 10] = [
    b"data_port",
    b"event_port",
    b"event_data_port",
    b"parameter",
    b"data_access",
    b"bus_access",
    b"subprogram_access",
    b"subprogram_group_access",
    b"feature_group",
    b"abstract_feature",
];

const DIRECTIONS: [&[u8]; 4] = [b"none", b"in", b"out", b"in_out"];

const SEVERITIES: [&[u8]; 3] = [b"error", b"warning", b"info"];

// The line of a member of a value, from the two numbers of its row. A value that is no collection has no members, and no line.
#[tactic(auto, using(texts::proofs::AppendLaws::appended_none))]
pub fn write_member(image: &[u8], value: Value, first: u32, second: u32, out: &mut Writer<'_>)
    ensures { Wrote (member_text image.now value first second) out.old out.new }
{
    match value {
        Value::Components(_) => write_component(image, first, out),
        Value::Features(_) => write_feature(image, first, second, out),
        Value::Diagnostics(_) => write_diagnostic(image, first, out),
        Value::Bool(_) | Value::BoolWithWarning(_) | Value::Count(_) => {}
    }
}

// A component: its index and its category.
fn write_component(image: &[u8], component: u32, out: &mut Writer<'_>)
    ensures { Wrote (component_text image.now component) out.old out.new }
{
    let category = image::category(image, component);
    out.write_numbered(b"  component ", u64::from(component), b": ");
    out.write_item(&CATEGORIES, category);
    out.append(b"\n");
}

// A feature: its component's index, its name, its kind and its direction.
fn write_feature(image: &[u8], component: u32, feature: u32, out: &mut Writer<'_>)
    ensures { Wrote (feature_text image.now component feature) out.old out.new }
{
    let name = image::feature_name(image, feature);
    out.write_numbered(b"  component ", u64::from(component), b": feature ");
    out.write_shown(image::string(image, name));
    write_port(image, feature, out);
    out.append(b"\n");
}

// A feature's kind and direction, each behind a comma; no direction where it has none.
fn write_port(image: &[u8], feature: u32, out: &mut Writer<'_>)
    ensures { Wrote (port_text image.now feature) out.old out.new }
{
    let kind = image::feature_kind(image, feature);
    let direction = image::direction(image, feature);
    out.append(b", ");
    out.write_item(&FEATURE_KINDS, kind);
    if direction == Direction::None as u32 {
        return;
    }
    out.append(b", ");
    out.write_item(&DIRECTIONS, direction);
}

// A diagnostic: its severity and its message.
fn write_diagnostic(image: &[u8], diagnostic: u32, out: &mut Writer<'_>)
    ensures { Wrote (diagnostic_text image.now diagnostic) out.old out.new }
{
    let severity = image::severity(image, diagnostic);
    let message = image::message(image, diagnostic);
    out.append(b"  ");
    out.write_item(&SEVERITIES, severity);
    out.append(b": ");
    out.write_shown(image::string(image, message));
    out.append(b"\n");
}
