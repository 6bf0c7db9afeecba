// Good and bad texts, each with its number; lines written among bytes that stay.
use crate::leaf::Value;
use crate::{
    Fault, Line, Setting, Standard, UnknownStandard, count_lines, fill_block, levels_len,
    read_block, read_level, read_line, read_number, samples_len, setting_len, split_len,
    square_len, write_levels, write_samples, write_setting, write_split, write_square,
};
use std::test::Fail;

// The number by which a call refuses, if it does.
fn refusal<T: Copy>(answer: Result<T, Fault>) -> Option<u8> {
    answer.err().map(|fault| fault.number())
}

// What reading over a block answers, with the number of its refusal, and the block after it.
fn read_over<T: Value, const N: usize>(before: [T; N], fields: &[u8]) -> (Result<(), u8>, [T; N]) {
    let mut block = before;
    let answer = read_block(fields, &mut block).map_err(|fault| fault.number());
    (answer, block)
}

#[test]
fn numbers(rt: HostRuntime) {
    assert_eq!(rt; read_number(b"0"), Ok(0));
    assert_eq!(rt; read_number(b"7"), Ok(7));
    assert_eq!(rt; read_number(b"10"), Ok(10));
    assert_eq!(rt; read_number(b"255"), Ok(255));
    assert_eq!(rt; read_number(b"65535"), Ok(65535));
}

#[test]
fn bad_numbers(rt: HostRuntime) {
    for field in [
        b"".as_slice(),
        b"-0",
        b"-1",
        b"00",
        b"01",
        b"+1",
        b"65536",
        b"99999",
        b"100000",
        b"1 ",
        b" 1",
        b"a",
        b"1a",
        b"1.",
        b"1\r",
        b"1\n",
        b"1\t",
        b"/",
        b":",
    ] {
        assert_eq!(rt; refusal(read_number(field)), Some(11));
    }
}

#[test]
fn levels(rt: HostRuntime) {
    assert_eq!(rt; read_level(b"1"), Ok(1));
    assert_eq!(rt; read_level(b"-1"), Ok(-1));
    assert_eq!(rt; read_level(b"32767"), Ok(32767));
    assert_eq!(rt; read_level(b"-32768"), Ok(-32768));
}

#[test]
fn bad_levels(rt: HostRuntime) {
    for field in [
        b"".as_slice(),
        b"-",
        b"0",
        b"-0",
        b"00",
        b"-01",
        b"+1",
        b"--1",
        b"1-",
        b"32768",
        b"-32769",
        b"65536",
        b"1 ",
        b"x",
        b"1a",
        b"- 1",
        b"-1\r",
    ] {
        assert_eq!(rt; refusal(read_level(field)), Some(11));
    }
}

#[test]
fn lines_without_end(rt: HostRuntime) {
    for text in [
        b"".as_slice(),
        b"S",
        b"X",
        b"Q\t0\t0",
        b"M\tHEVC\t22\t8",
        b"T\t0\t64\r",
    ] {
        assert_eq!(rt; refusal(read_line(text)), Some(9));
    }
}

#[test]
fn bad_lines(rt: HostRuntime) {
    for text in [
        b"\n".as_slice(),
        b"X\n",
        b"s\n",
        b" S\n",
        b"\tS\n",
        b"S\t\n",
        b"S\r\n",
        b"S\t0\n",
        b"SS\n",
        b"TT\n",
        b"T\r\n",
        b"M\n",
        b"M\tHEVC\n",
        b"Q\n",
        b"Q\t0\n",
        b"Q\t0\t0\t\n",
        b"Q\t0\t0\t0\n",
        b"Q 0 0\n",
        b"M\tHEVC\t22\n",
        b"M\tHEVC\t22\t8\t\n",
        b"U\t0\t1\n",
    ] {
        assert_eq!(rt; refusal(read_line(text)), Some(10));
    }
}

#[test]
fn a_setting_line(rt: HostRuntime) -> Result<(), Fail> {
    match read_line(b"M\tH264\t30\t007\nQ") {
        Ok(
            (
                Line::Setting {
                    name,
                    step,
                    tolerance,
                },
                rest,
            ),
        ) => {
            assert_eq!(rt; name, b"H264".as_slice());
            assert_eq!(rt; step, b"30".as_slice());
            assert_eq!(rt; tolerance, b"007".as_slice());
            assert_eq!(rt; rest, b"Q".as_slice());
            Ok(())
        }
        _ => Err(Fail::new("no setting was read")),
    }
}

#[test]
fn a_square_line(rt: HostRuntime) -> Result<(), Fail> {
    match read_line(b"Q\t\t12\n\n") {
        Ok((Line::Square { column, row }, rest)) => {
            assert_eq!(rt; column, b"".as_slice());
            assert_eq!(rt; row, b"12".as_slice());
            assert_eq!(rt; rest, b"\n".as_slice());
            Ok(())
        }
        _ => Err(Fail::new("no square was read")),
    }
}

#[test]
fn leaf_lines(rt: HostRuntime) -> Result<(), Fail> {
    match read_line(b"T\t0\t64\nT\n") {
        Ok((Line::Levels { pairs }, rest)) => {
            assert_eq!(rt; pairs, b"\t0\t64".as_slice());
            assert_eq!(rt; rest, b"T\n".as_slice());
        }
        _ => return Err(Fail::new("no transform leaf was read")),
    }
    match read_line(b"R\n") {
        Ok((Line::Raw { samples }, rest)) => {
            assert_eq!(rt; samples, b"".as_slice());
            assert_eq!(rt; rest, b"".as_slice());
            Ok(())
        }
        _ => Err(Fail::new("no raw leaf was read")),
    }
}

#[test]
fn films(rt: HostRuntime) {
    assert_eq!(rt; count_lines(b""), Ok(0));
    assert_eq!(rt; count_lines(b"Q\t0\t0\nT\t0\t64\n"), Ok(2));
    assert_eq!(rt; count_lines(b"S\nT\nT\nR\nT\n"), Ok(5));
    assert_eq!(rt; count_lines(b"Q\tx\t\n"), Ok(1), "fields are not looked at");
    assert_eq!(rt; count_lines(b"S\nT\nT"), Err(Fault::Unended));
    assert_eq!(rt; count_lines(b"S\n\nT\n"), Err(Fault::BadLine));
}

// What stands in a block before it is read.
const NINES: [i32; 16] = [9; 16];

#[test]
fn blocks_of_levels(rt: HostRuntime) {
    assert_eq!(rt; read_over(NINES, b""), (Ok(()), [0; 16]));
    assert_eq!(rt;
        read_over(NINES, b"\t0\t64"),
        (Ok(()), [64, 0, 0, 0, 0, 0, 0, 0, 0, 0, 0, 0, 0, 0, 0, 0])
    );
    assert_eq!(rt;
        read_over(NINES, b"\t1\t-32768\t14\t3\t15\t32767"),
        (
            Ok(()),
            [0, -32768, 0, 0, 0, 0, 0, 0, 0, 0, 0, 0, 0, 0, 3, 32767]
        )
    );
}

#[test]
fn bad_numbers_of_pairs(rt: HostRuntime) {
    for pairs in [
        b"\t".as_slice(),
        b"\t0",
        b"\t0\t1\t",
        b"\tx\t1\t",
        b"0\t64",
        b"X0\t64",
    ] {
        assert_eq!(rt; read_over(NINES, pairs), (Err(10), NINES));
    }
}

#[test]
fn bad_pairs(rt: HostRuntime) {
    for pairs in [
        b"\t16\t1".as_slice(),
        b"\t1\t5\t1\t6",
        b"\t2\t5\t1\t6",
        b"\t01\t1",
        b"\t+1\t1",
        b"\t-0\t1",
        b"\t\t1",
        b"\t0\r\t64",
        b"\t0\t0",
        b"\t0\t",
        b"\t\t",
        b"\t0\t32768",
        b"\t0\t-32769",
        b"\t0\t64\r",
    ] {
        assert_eq!(rt; read_over(NINES, pairs), (Err(11), NINES));
    }
}

// What stands in a block of samples before it is read.
const SEVENS: [u8; 4] = [7; 4];

#[test]
fn blocks_of_samples(rt: HostRuntime) {
    assert_eq!(rt;
        read_over(SEVENS, b"\t0\t255\t16\t1"),
        (Ok(()), [0, 255, 16, 1])
    );
    for samples in [
        b"".as_slice(),
        b"\t0\t255\t16",
        b"\t0\t255\t16\t1\t1",
        b"\t0\t255\t16\t1\t",
        b"0\t1\t2\t3",
    ] {
        assert_eq!(rt; read_over(SEVENS, samples), (Err(10), SEVENS));
    }
}

#[test]
fn bad_samples(rt: HostRuntime) {
    for samples in [
        b"\t0\t256\t16\t1".as_slice(),
        b"\t0\t-1\t16\t1",
        b"\t0\t255\t016\t1",
        b"\t0\t255\t\t1",
        b"\t00\t1\t2\t3",
        b"\t-0\t1\t2\t3",
        b"\t+1\t1\t2\t3",
        b"\t1 \t1\t2\t3",
        b"\ta\t1\t2\t3",
        b"\t0\t1\t2\t65536",
        b"\t0\t1\t2\t3\r",
    ] {
        assert_eq!(rt; read_over(SEVENS, samples), (Err(11), SEVENS));
    }
}

#[test]
fn scratch_blocks(rt: HostRuntime) {
    let mut levels = NINES;
    assert_eq!(rt; fill_block(b"\t15\t-7", &mut levels), Ok(()));
    assert_eq!(rt; levels, [0, 0, 0, 0, 0, 0, 0, 0, 0, 0, 0, 0, 0, 0, 0, -7]);
    assert_eq!(rt; refusal(fill_block(b"\t15", &mut levels)), Some(10));
    assert_eq!(rt; refusal(fill_block(b"\t16\t1", &mut levels)), Some(11));
    let mut samples = SEVENS;
    assert_eq!(rt; fill_block(b"\t3\t2\t1\t255", &mut samples), Ok(()));
    assert_eq!(rt; samples, [3, 2, 1, 255]);
    assert_eq!(rt; refusal(fill_block(b"\t3\t2\t1", &mut samples)), Some(10));
    assert_eq!(rt;
        refusal(fill_block(b"\t3\t2\t1\t256", &mut samples)),
        Some(11)
    );
}

#[test]
fn names(rt: HostRuntime) {
    assert_eq!(rt; Standard::try_from(b"HEVC".as_slice()), Ok(Standard::Hevc));
    assert_eq!(rt; Standard::try_from(b"H264".as_slice()), Ok(Standard::H264));
    assert_eq!(rt; Standard::try_from(b"VC1".as_slice()), Ok(Standard::Vc1));
    assert_eq!(rt;
        Standard::try_from(b"hevc".as_slice()),
        Err(UnknownStandard)
    );
    assert_eq!(rt;
        Standard::try_from(b"VC-1".as_slice()),
        Err(UnknownStandard)
    );
    assert_eq!(rt;
        Standard::try_from(b"HEVC ".as_slice()),
        Err(UnknownStandard)
    );
    assert_eq!(rt; Standard::try_from(b"".as_slice()), Err(UnknownStandard));
    assert_eq!(rt; Standard::Hevc.name(), b"HEVC".as_slice());
    assert_eq!(rt; Standard::H264.name(), b"H264".as_slice());
    assert_eq!(rt; Standard::Vc1.name(), b"VC1".as_slice());
}

#[test]
fn standards_by_number(rt: HostRuntime) {
    assert_eq!(rt; Standard::try_from(0), Ok(Standard::Hevc));
    assert_eq!(rt; Standard::try_from(1), Ok(Standard::H264));
    assert_eq!(rt; Standard::try_from(2), Ok(Standard::Vc1));
    assert_eq!(rt; Standard::try_from(3), Err(UnknownStandard));
    assert_eq!(rt; u32::from(Standard::Hevc), 0);
    assert_eq!(rt; u32::from(Standard::H264), 1);
    assert_eq!(rt; u32::from(Standard::Vc1), 2);
    let number: u32 = Standard::Vc1.into();
    let standard: Result<Standard, UnknownStandard> = number.try_into();
    assert_eq!(rt; standard, Ok(Standard::Vc1));
}

#[test]
fn settings(rt: HostRuntime) {
    let opening = Setting::opening();
    assert_eq!(rt; opening.standard, Standard::Hevc);
    assert_eq!(rt; opening.step, 22);
    assert_eq!(rt; opening.tolerance, 8);
    assert!(rt; Setting::new(Standard::Vc1, 65535, 255).is_some());
    assert!(rt; Setting::new(Standard::Hevc, 22, 256).is_none());
}

// Three bytes stand before each line, and others behind it. Each kind of line has its own call and its own fields.
fn written_setting(setting: Setting) -> [u8; 24] {
    let mut out = [b'.'; 24];
    if setting_len(setting) <= 21 {
        write_setting(setting, &mut out, 3);
    }
    out
}

fn written_square(column: u16, row: u16) -> [u8; 24] {
    let mut out = [b'.'; 24];
    if square_len(column, row) <= 21 {
        write_square(column, row, &mut out, 3);
    }
    out
}

fn written_split() -> [u8; 6] {
    let mut out = [b'.'; 6];
    if split_len() <= 3 {
        write_split(&mut out, 3);
    }
    out
}

fn written_levels(levels: [i32; 4]) -> [u8; 24] {
    let mut out = [b'.'; 24];
    if levels_len(&levels) <= 21 {
        write_levels(&levels, &mut out, 3);
    }
    out
}

fn written_samples(samples: [u8; 4]) -> [u8; 24] {
    let mut out = [b'.'; 24];
    if samples_len(&samples) <= 21 {
        write_samples(&samples, &mut out, 3);
    }
    out
}

#[test]
fn written_lines(rt: HostRuntime) {
    assert_eq!(rt;
        written_setting(Setting::opening()),
        *b"...M\tHEVC\t22\t8\n........."
    );
    assert_eq!(rt; written_square(0, 65535), *b"...Q\t0\t65535\n...........");
    assert_eq!(rt; written_split(), *b"...S\n.");
    assert_eq!(rt;
        written_levels([0, -32768, 0, 32767]),
        *b"...T\t1\t-32768\t3\t32767\n.."
    );
    assert_eq!(rt; written_levels([0; 4]), *b"...T\n...................");
    assert_eq!(rt;
        written_samples([0, 9, 10, 255]),
        *b"...R\t0\t9\t10\t255\n........"
    );
}

#[test]
fn a_written_setting_is_read_back(rt: HostRuntime) -> Result<(), Fail> {
    let Some(setting) = Setting::new(Standard::Vc1, 65535, 255) else {
        return Err(Fail::new("no setting"));
    };
    let out = written_setting(setting);
    let (line, rest) = read_line(&out[3..])?;
    let Line::Setting {
        name,
        step,
        tolerance,
    } = line
    else {
        return Err(Fail::new("no setting was read"));
    };
    assert_eq!(rt; Standard::try_from(name), Ok(Standard::Vc1));
    assert_eq!(rt; read_number(step), Ok(65535));
    assert_eq!(rt; read_number(tolerance), Ok(255));
    assert_eq!(rt; rest, b".....".as_slice());
    Ok(())
}

#[test]
fn a_written_square_is_read_back(rt: HostRuntime) -> Result<(), Fail> {
    let out = written_square(7, 65535);
    let (line, rest) = read_line(&out[3..])?;
    let Line::Square { column, row } = line else {
        return Err(Fail::new("no square was read"));
    };
    assert_eq!(rt; read_number(column), Ok(7));
    assert_eq!(rt; read_number(row), Ok(65535));
    assert_eq!(rt; rest, b"...........".as_slice());
    Ok(())
}

#[test]
fn written_leaves_are_read_back(rt: HostRuntime) -> Result<(), Fail> {
    let out = written_levels([5, 0, -6, 0]);
    let (line, _) = read_line(&out[3..])?;
    let Line::Levels { pairs } = line else {
        return Err(Fail::new("no transform leaf was read"));
    };
    let mut levels = [9; 4];
    assert_eq!(rt; read_block(pairs, &mut levels), Ok(()));
    assert_eq!(rt; levels, [5, 0, -6, 0]);
    let out = written_samples([255, 0, 16, 1]);
    let (line, _) = read_line(&out[3..])?;
    let Line::Raw { samples } = line else {
        return Err(Fail::new("no raw leaf was read"));
    };
    let mut block = SEVENS;
    assert_eq!(rt; read_block(samples, &mut block), Ok(()));
    assert_eq!(rt; block, [255, 0, 16, 1]);
    Ok(())
}
