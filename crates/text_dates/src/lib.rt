//! The texts of moments, and the moment that a text means. All are in UTC.
#![tactic(auto)]

ghost use Rattle.std.specs.Prelude.{◌≡◌, true, ◌+◌, ◌/◌, ◌<◌, ◌≤◌, ◌++◌, codes, length, IfOk, IfSome, OnOk, pos};
ghost use Rattle.std.specs.List.{list_all};
ghost use Rattle.std.specs.Char.{is_ascii_digit};
ghost use Rattle.std.specs.Result.{result_ok};
ghost use Rattle.jiff.specs.Words.{epoch_day, IsEpochDay};
ghost use Rattle.model.specs.Calendar as calendar;
ghost use Rattle.text_dates.specs.Since as since;
ghost use Rattle.model.specs.Calendar.{four_digits, two_digits};

use jiff::ToSpan;
use jiff::civil::{Date, date};
use model::Moment;
use std::alloc::{AllocError, Global};
use thiserror::Error;

const MINUTE: u64 = 60;

const HOUR: u64 = 3_600;

const DAY: u64 = 86_400;

/// The digits of a moment in the answer to DATE.
pub const DATE_DIGITS: usize = 14;

/// The octets of a moment in a Date field.
pub const HEADER_OCTETS: usize = 31;

/// Why a date and a time of day are refused.
#[derive(Clone, Copy, Debug, PartialEq, Eq, Error)]
pub enum SinceError {
    /// They do not have the form, or the calendar has no such moment.
    #[error("E14 Bad")]
    Bad,
}

/// The date of a moment.
fn date_at(moment: u64) -> Date
    requires { moment < calendar.moment_limit }
    ensures { epoch_day result ≡ pos (moment / 86_400) }
{
    let days = (moment / DAY) as i64;
    date(1970, 1, 1).checked_add(days.days()).unwrap()
}

/// Appends two digits.
fn push_two(text: &mut Vec<u8>, n: u64) -> Result<(), AllocError>
    ensures { OnOk result (text.new.items ≡ text.old.items ++ two_digits n) }
{
    text.push((48 + n / 10 % 10) as u8)?;
    text.push((48 + n % 10) as u8)?;
    Ok(())
}

/// Appends four digits.
fn push_four(text: &mut Vec<u8>, n: u64) -> Result<(), AllocError>
    ensures { OnOk result (text.new.items ≡ text.old.items ++ four_digits n) }
{
    push_two(text, n / 100)?;
    push_two(text, n)
}

/// The parts of a date since 1970.
#[derive(Clone, Copy)]
struct Parts {
    year: u64,
    month: u64,
    day: u64,
}

/// The parts of the date of a moment.
fn parts_at(moment: u64) -> Parts
    requires { moment < calendar.moment_limit }
    ensures date { record { year = result.year; month = result.month; day = result.day } ≡ calendar.date_at moment }
    ensures year_low { 1970 ≤ result.year }
    ensures year_high { result.year ≤ 9999 }
    ensures month_low { 1 ≤ result.month }
    ensures month_high { result.month ≤ 12 }
{
    let date = date_at(moment);
    Parts {
        year: date.year() as u64,
        month: date.month() as u64,
        day: date.day() as u64,
    }
}

/// The fourteen digits of a moment in the answer to DATE, as `20010909014640` (RFC 3977, 7.1).
pub fn date_reply(alloc: Global, moment: Moment) -> Result<Vec<u8>, AllocError>
    ensures { IfOk result (λ text. text.items ≡ calendar.date_reply moment) }
{
    let mut text = Vec::with_capacity(alloc, DATE_DIGITS)?;
    push_date_reply(&mut text, moment)?;
    Ok(text)
}

/// Appends the digits of `date_reply`. Refused only for want of memory; then the text may hold any octets, and the
/// caller discards it.
pub fn push_date_reply(text: &mut Vec<u8>, moment: Moment) -> Result<(), AllocError>
    ensures { OnOk result (text.new.items ≡ text.old.items ++ calendar.date_reply moment) }
{
    let seconds = moment.seconds();
    push_date_digits(text, parts_at(seconds))?;
    push_clock_digits(text, seconds)
}

/// Appends the eight digits of a date, as 20010909.
fn push_date_digits(text: &mut Vec<u8>, date: Parts) -> Result<(), AllocError>
    ensures { OnOk result (text.new.items ≡ text.old.items ++ (four_digits date.year ++ two_digits date.month ++ two_digits date.day)) }
{
    push_four(text, date.year)?;
    push_two(text, date.month)?;
    push_two(text, date.day)
}

/// Appends the six digits of a moment's time of day, as 014640.
fn push_clock_digits(text: &mut Vec<u8>, moment: u64) -> Result<(), AllocError>
    ensures { OnOk result (text.new.items ≡ text.old.items
        ++ (two_digits (calendar.hour_at moment) ++ two_digits (calendar.minute_at moment)
        ++ two_digits (calendar.second_at moment))) }
{
    push_two(text, moment % DAY / HOUR)?;
    push_two(text, moment % HOUR / MINUTE)?;
    push_two(text, moment % MINUTE)
}

/// The name of a moment's day of the week.
fn weekday_name(moment: u64) -> &'static [u8]
    ensures { result.now ≡ calendar.weekday_name moment }
{
    match moment / DAY % 7 {
        0 => b"Thu",
        1 => b"Fri",
        2 => b"Sat",
        3 => b"Sun",
        4 => b"Mon",
        5 => b"Tue",
        _ => b"Wed",
    }
}

/// The name of a month, from 1 on.
fn month_name(month: u64) -> &'static [u8]
    requires low { 1 ≤ month }
    requires high { month ≤ 12 }
    ensures { result.now ≡ calendar.month_name month }
{
    match month {
        1 => b"Jan",
        2 => b"Feb",
        3 => b"Mar",
        4 => b"Apr",
        5 => b"May",
        6 => b"Jun",
        7 => b"Jul",
        8 => b"Aug",
        9 => b"Sep",
        10 => b"Oct",
        11 => b"Nov",
        _ => b"Dec",
    }
}

/// Appends a moment's time of day, as 01:46:40.
fn push_clock(text: &mut Vec<u8>, moment: u64) -> Result<(), AllocError>
    ensures { OnOk result (text.new.items ≡ text.old.items ++ two_digits (calendar.hour_at moment) ++ codes ":" ++ two_digits
        (calendar.minute_at moment) ++ codes ":" ++ two_digits (calendar.second_at moment)) }
{
    push_two(text, moment % DAY / HOUR)?;
    text.extend_from_slice(b":")?;
    push_two(text, moment % HOUR / MINUTE)?;
    text.extend_from_slice(b":")?;
    push_two(text, moment % MINUTE)
}

/// Appends a date, as 09 Sep 2001.
fn push_date(text: &mut Vec<u8>, date: Parts) -> Result<(), AllocError>
    requires low { 1 ≤ date.month }
    requires high { date.month ≤ 12 }
    ensures { OnOk result (text.new.items ≡ text.old.items ++ two_digits date.day ++ codes " " ++ calendar.month_name date.month
        ++ codes " " ++ four_digits date.year) }
{
    push_two(text, date.day)?;
    text.extend_from_slice(b" ")?;
    text.extend_from_slice(month_name(date.month))?;
    text.extend_from_slice(b" ")?;
    push_four(text, date.year)
}

/// A moment in the form of a Date field, as `Sun, 09 Sep 2001 01:46:40 +0000` (RFC 5536, 3.1.1). It always has 31
/// octets (`model::date_of_a_moment`).
pub fn date_header(alloc: Global, moment: Moment) -> Result<Vec<u8>, AllocError>
    ensures { IfOk result (λ text. text.items ≡ calendar.date_header moment) }
{
    let mut text = Vec::with_capacity(alloc, HEADER_OCTETS)?;
    push_date_header(&mut text, moment)?;
    Ok(text)
}

/// Appends the octets of `date_header`. Refused only for want of memory; then the text may hold any octets, and the
/// caller discards it.
pub fn push_date_header(text: &mut Vec<u8>, moment: Moment) -> Result<(), AllocError>
    ensures { OnOk result (text.new.items ≡ text.old.items ++ calendar.date_header moment) }
{
    let seconds = moment.seconds();
    let date = parts_at(seconds);
    text.extend_from_slice(weekday_name(seconds))?;
    text.extend_from_slice(b", ")?;
    push_date(text, date)?;
    text.extend_from_slice(b" ")?;
    push_clock(text, seconds)?;
    text.extend_from_slice(b" +0000")?;
    Ok(())
}

/// Whether a text consists of this many digits.
fn are_digits(count: usize, text: &[u8]) -> bool
    ensures { result ≡ calendar.are_digits count text.now }
{
    text.len() == count && has_digits_alone(text)
}

fn has_digits_alone(text: &[u8]) -> bool
    ensures { result ≡ list_all is_ascii_digit text.now }
{
    text.iter().all(|x| x.is_ascii_digit())
}

/// The number that the two digits at a place write.
fn two_at(place: usize, text: &[u8]) -> u64
    requires within { place + 2 ≤ length text.now }
    requires digits { list_all is_ascii_digit text.now ≡ true }
    ensures value { result ≡ calendar.two_at place text.now }
    ensures small { result < 100 }
{
    (text[place] - b'0') as u64 * 10 + (text[place + 1] - b'0') as u64
}

/// The year that two digits mean (RFC 3977, 7.3.2).
fn full_year(current: u64, two: u64) -> u64
    requires since { 100 ≤ current }
    requires last { current ≤ 9999 }
    requires two { two < 100 }
    ensures value { result ≡ calendar.full_year current two }
    ensures last { result ≤ 9999 }
{
    let century = current - current % 100;
    if two <= current % 100 {
        century + two
    } else {
        century + two - 100
    }
}

/// The year of a date's text.
fn year_of(current: u64, date: &[u8]) -> u64
    requires since { 100 ≤ current }
    requires last { current ≤ 9999 }
    requires length { 4 ≤ length date.now }
    requires digits { list_all is_ascii_digit date.now ≡ true }
    ensures value { result ≡ calendar.year_of current date.now }
    ensures last { result ≤ 9999 }
{
    if date.len() == 6 {
        full_year(current, two_at(0, date))
    } else {
        two_at(0, date) * 100 + two_at(2, date)
    }
}

/// The number of days from 1 January 1970 to the date with these parts, if the calendar has it.
fn days_since(parts: Parts) -> Option<i64>
    requires year { parts.year ≤ 9999 }
    requires month { parts.month < 100 }
    requires day { parts.day < 100 }
    ensures value { result ≡ since.days_since (record { year = parts.year; month = parts.month; day = parts.day }) }
    ensures range { IfSome result IsEpochDay }
{
    let Ok(date) = Date::new(parts.year as i16, parts.month as i8, parts.day as i8) else {
        return None;
    };
    Some(date.to_plain().to_unix_epoch_day() as i64)
}

/// The same for a date's text; `current` is the current year.
fn days_of_text(current: u64, date: &[u8]) -> Option<i64>
    requires since { 100 ≤ current }
    requires last { current ≤ 9999 }
    ensures value { result ≡ since.days_of_text current date.now }
    ensures range { IfSome result IsEpochDay }
{
    if !(are_digits(6, date) || are_digits(8, date)) {
        return None;
    }
    days_since(Parts {
        year: year_of(current, date),
        month: two_at(date.len() - 4, date),
        day: two_at(date.len() - 2, date),
    })
}

/// The number of seconds from midnight to a time of day, if the text is one.
fn seconds_of_text(time: &[u8]) -> Option<u64>
    ensures value { result ≡ since.seconds_of_text time.now }
    ensures small { IfSome result (λ seconds. seconds < 86_400) }
{
    if !are_digits(6, time) {
        return None;
    }
    let (hour, minute, second) = (two_at(0, time), two_at(2, time), two_at(4, time));
    if hour < 24 && minute < 60 && second < 60 {
        Some(hour * HOUR + minute * MINUTE + second)
    } else {
        None
    }
}

/// The moment of a date (`yymmdd` or `yyyymmdd`) and a time of day (`hhmmss`) in UTC, in whole seconds since 1970; it
/// is negative before 1970 (RFC 3977, 7.3.2). A year of two digits is in the century of `moment` if the result is not
/// later than the year of `moment`, else in the century before. `Bad` comes exactly if the calendar has no such date or
/// the time of day is after 23:59:59 (this project's rule: a leap second is refused too).
pub fn read_since(date: &[u8], time: &[u8], moment: Moment) -> Result<i64, SinceError>
    ensures { result_ok result ≡ calendar.since date.now time.now moment }
{
    let Some(days) = days_of_text(parts_at(moment.seconds()).year, date) else {
        return Err(SinceError::Bad);
    };
    let Some(seconds) = seconds_of_text(time) else {
        return Err(SinceError::Bad);
    };
    Ok(days * DAY as i64 + seconds as i64)
}
