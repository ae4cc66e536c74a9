//! Where a value is no kernel, and why, in words: the second line of J3.

use crate::names::template_named;
use crate::operands::Kind;
use crate::shapes::{is_instruction, is_of_kind, kinds_of, most_of, name_in};
use bsp_engine::Remark;
use bsp_engine::tree::elements;
use toml::Value;

/// Says of an operand that its value is not of its kind.
fn tell_operand(remark: &mut Remark, kind: Kind, places: usize, value: &Value) {
    let Some(number) = value.as_integer() else {
        return remark.add(": not an integer");
    };
    remark.add_value(": ", number);
    remark.add_value(", at most ", most_of(kind, places));
    if let Kind::Place = kind {
        remark.add(", the end of the code");
    }
}

/// Says which of the operands behind a name is the first that is wrong. They count from 1, since the name stands before them.
fn tell_operands(remark: &mut Remark, kinds: &[Kind], places: usize, operands: &[Value]) {
    if kinds.len() != operands.len() {
        remark.add_value(": ", operands.len());
        remark.add_value(" operands, ", kinds.len());
        return remark.add(" wanted");
    }
    for (place, operand) in operands.iter().enumerate() {
        let kind = kinds[place];
        if !is_of_kind(kind, places, operand) {
            remark.add_value(", operand ", place.saturating_add(1));
            return tell_operand(remark, kind, places, operand);
        }
    }
}

fn tell_instruction(remark: &mut Remark, places: usize, value: &Value) {
    let values = elements(value);
    let (Some(name), Some((_, operands))) = (name_in(values), values.split_first()) else {
        return remark.add(": not an array of a name and operands");
    };
    remark.add(", ");
    remark.add_escaped(name);
    match template_named(name) {
        Some(template) => tell_operands(remark, kinds_of(template), places, operands),
        None => remark.add(": there is no such instruction"),
    }
}

/// Says which value of those at the key `kernel` is the first that is no instruction, and why.
pub fn tell_code(remark: &mut Remark, value: &Value) {
    if !value.is_array() {
        return remark.add(": not an array of instructions");
    }
    let values = elements(value);
    for (place, instruction) in values.iter().enumerate() {
        if !is_instruction(values.len(), instruction) {
            remark.add_value(", instruction ", place);
            return tell_instruction(remark, values.len(), instruction);
        }
    }
}
