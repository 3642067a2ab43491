// The float helpers, the area, the pieces of an apex, and records: the function, its arguments and one word, the answer.
//  1 max  2 min  3 abs  4 clamp  5 floor  6 ceil  7 round  8 x as u32  9 n as f32  10 bits  11 lerp  12 quad_subsample
//  16 area of two places and a row  17 its number  18 candidate of an index and a row  19 prominence  20 left crossing of the
//  half height  21 right crossing  22 whether a record is sound
use super::lines::Answer;
use test_hex_lines::parts::{self, Line};

fn word(line: &mut Line<'_>) -> Option<u32> {
    line.take_words(1)?.first().copied()
}

fn float(line: &mut Line<'_>) -> Option<f32> {
    line.take_floats(1)?.first().copied()
}

// A row: all that is left behind so many arguments but the last word; of no length where the line is too short for one.
fn row<'a>(line: &mut Line<'a>, arguments: usize) -> Option<&'a [f32]> {
    let n = line.rest().len().checked_sub(1)?;
    let floats = line.take_floats(n)?;
    Some(floats.get(arguments..).unwrap_or(&[]))
}

// The answer of a number of no function, 0 / 0: it stands behind two arguments of the number 0, and is the last word of any other.
fn no_function(number: u32, line: &mut Line<'_>) -> Option<f32> {
    let arguments = match number {
        0 => 2,
        _ => line.rest().len().checked_sub(1)?,
    };
    line.take_words(arguments)?;
    Some(0.0 / 0.0)
}

// The answer of a function of floats.
fn scalar(function: u32, line: &mut Line<'_>) -> Option<f32> {
    Some(match function {
        1 => numeric::max(float(line)?, float(line)?),
        2 => numeric::min(float(line)?, float(line)?),
        3 => numeric::abs(float(line)?),
        4 => numeric::clamp(float(line)?, float(line)?, float(line)?),
        5 => rounding::floor(float(line)?),
        6 => rounding::ceil(float(line)?),
        7 => rounding::round(float(line)?),
        10 => float(line)?,
        11 => numeric::lerp(float(line)?, float(line)?, float(line)?),
        12 => numeric::quad_subsample(float(line)?, float(line)?, float(line)?),
        _ => no_function(function, line)?,
    })
}

// The area's bit pattern, or all bits where it is refused; its number. Of a short line the last word is an argument too, and one that is
// missing is 0.
fn area(function: u32, line: &mut Line<'_>) -> Option<u32> {
    let from = parts::float(line.rest(), 0);
    let to = parts::float(line.rest(), 1);
    let area = row_area::trapezoid_area_fractional(row(line, 2)?, from, to);
    Some(match function {
        17 => area.err().map_or(0, |refusal| refusal.number()),
        _ => area.map_or(0xffff_ffff, numeric::word_of),
    })
}

fn apex(function: u32, line: &mut Line<'_>) -> Option<u32> {
    let i = parts::word(line.rest(), 0) as usize;
    let y = row(line, 1)?;
    Some(match function {
        18 => u32::from(test_probe::probe_is_candidate(y, i)),
        _ => numeric::word_of(test_probe::probe_apex(function, y, i)),
    })
}

// A match on the function, whose number the stored line has.
fn value(function: u32, line: &mut Line<'_>) -> Option<u32> {
    match function {
        8 => Some(numeric::cast_sat(float(line)?)),
        9 => Some(numeric::word_of(numeric::of_u32(word(line)?))),
        16 | 17 => area(function, line),
        18 | 19 | 20 | 21 => apex(function, line),
        22 => Some(test_probe::probe_sound(line.take_words(27)?, 0)),
        _ => Some(numeric::word_of(scalar(function, line)?)),
    }
}

pub(crate) fn leaf(line: &mut Line<'_>) -> Option<Answer<1>> {
    let function = word(line)?;
    Some(Answer::of([value(function, line)?]))
}
