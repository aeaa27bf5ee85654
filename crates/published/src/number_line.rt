// Lines of numbers, by their bits in hexadecimal: the conversions, the decimal precisions and the parts of a duration.
// Each function answers whether a leaf has the line's name and was given what that leaf takes.
use streams::CanWrite;
use streams::output::Output;

fn long_to_int_of(out: &mut Output<'_, impl CanWrite>, b: u64) {
    match scalar::long_to_int(b) {
        Some(n) => out.put_hex(n as u64, 8),
        None => out.put(b"outside Int"),
    }
}

// The conversions of an Int and of a Float.
fn of_four(out: &mut Output<'_, impl CanWrite>, name: &[u8], b: u32) -> bool {
    match name {
        b"int-to-long" => out.put_hex(bits::int_to_long(b), 16),
        b"int-to-float" => out.put_hex(bits::int_to_float(b) as u64, 8),
        b"int-to-double" => out.put_hex(bits::int_to_double(b), 16),
        b"float-to-float" => out.put_hex(bits::float_to_float(b) as u64, 8),
        b"float-to-double" => out.put_hex(bits::float_to_double(b), 16),
        _ => return false,
    }
    true
}

// The conversions of a Long and of a Double.
fn of_eight(out: &mut Output<'_, impl CanWrite>, name: &[u8], b: u64) -> bool {
    match name {
        b"long-to-int" => long_to_int_of(out, b),
        b"long-to-float" => out.put_hex(bits::long_to_float(b) as u64, 8),
        b"long-to-double" => out.put_hex(bits::long_to_double(b), 16),
        b"double-to-float" => out.put_hex(bits::double_to_float(b) as u64, 8),
        b"double-to-double" => out.put_hex(bits::double_to_double(b), 16),
        _ => return false,
    }
    true
}

fn max_precision_of(out: &mut Output<'_, impl CanWrite>, len: u16) {
    match decimal::max_prec_for_len(len as usize) {
        Some(p) => out.put_decimal(p as u64),
        None => out.put(b"any"),
    }
}

fn of_two(out: &mut Output<'_, impl CanWrite>, name: &[u8], b: u16) -> bool {
    let known = text::same(name, b"max-precision");
    if known {
        max_precision_of(out, b);
    }
    known
}

// A number of 2, 4 or 8 bytes.
#[derive(Clone, Copy)]
enum Word {
    Two(u16),
    Four(u32),
    Eight(u64),
}

fn read_word(given: &[u8]) -> Option<Word> {
    let mut b = [0u8; 8];
    match hex_text::from_hex(given, &mut b) {
        Ok(2) => Some(Word::Two(number::read2(&b, 0))),
        Ok(4) => Some(Word::Four(number::read4(&b, 0))),
        Ok(8) => Some(Word::Eight(number::read8(&b, 0))),
        _ => None,
    }
}

fn admitted(precision: &[u8], len: &[u8]) -> bool {
    match (read_word(precision), read_word(len)) {
        (Some(Word::Four(p)), Some(Word::Two(n))) => !decimal::too_short_for(p, n as usize),
        _ => false,
    }
}

// A length of 2 bytes, a space, and a precision of 4.
fn precision_of(out: &mut Output<'_, impl CanWrite>, given: &[u8]) -> bool {
    if given.len() != 13 {
        return false;
    }
    if admitted(&given[5..13], &given[0..4]) {
        out.put(b"admitted");
    } else {
        out.put(b"too short");
    }
    true
}

fn put_duration(out: &mut Output<'_, impl CanWrite>, b: [u8; 12]) {
    let d = duration::Duration::from_bytes(b);
    out.put_decimal(d.months.0 as u64);
    out.put(b" months ");
    out.put_decimal(d.days.0 as u64);
    out.put(b" days ");
    out.put_decimal(d.millis.0 as u64);
    out.put(b" millis");
}

fn duration_of(out: &mut Output<'_, impl CanWrite>, given: &[u8]) -> bool {
    if given.len() != 24 {
        return false;
    }
    let mut b = [0u8; 12];
    let known = hex_text::from_hex(given, &mut b).is_ok();
    if known {
        put_duration(out, b);
    }
    known
}

pub(crate) fn answer(out: &mut Output<'_, impl CanWrite>, name: &[u8], given: &[u8]) -> bool {
    match name {
        b"precision" => precision_of(out, given),
        b"duration" => duration_of(out, given),
        _ => match read_word(given) {
            Some(Word::Two(b)) => of_two(out, name, b),
            Some(Word::Four(b)) => of_four(out, name, b),
            Some(Word::Eight(b)) => of_eight(out, name, b),
            None => false,
        },
    }
}
