//! A complaint as one JSON object.

ghost use Rattle.std.specs.Prelude.{◌≡◌, ◌∷◌, ◌++◌, [], IfOk, OnOk};
ghost use Rattle.ahci_check.specs.Json.{column_token, complaint_json, complaint_object, fault_name, kind_name, limit_name, rule_name};
ghost use Rattle.ahci_check.specs.Texts.{rule_text};

use crate::complaint::Complaint;
use crate::limit::Limit;
use crate::rule::Rule;
use ahci_script::Fault;
use json::Writer;
use port_refusal::Refusal;
use std::alloc::{AllocError, Allocator};

/// The text of a complaint's object.
pub(crate) fn json_text<A: Allocator + Clone>(
    alloc: &A,
    complaint: &Complaint,
) -> Result<Vec<u8, A>, AllocError>
    ensures { IfOk result (λ text. text.items ≡ complaint_json complaint.now) }
{
    let text = format!(in alloc.clone()?; "{}", complaint.rule)?;
    let mut writer = Writer::new(Vec::new(alloc.clone()?));
    put(&mut writer, complaint, &text)?;
    Ok(writer.into_inner())
}

/// Puts a complaint's object, whose rule has this text, into a writer that has nothing yet.
fn put<A: Allocator>(
    writer: &mut Writer<A>,
    complaint: &Complaint,
    text: &str,
) -> Result<(), AllocError>
    requires nothing { writer.old.tokens ≡ [] }
    requires text { text.now ≡ rule_text complaint.now.rule }
    ensures tokens { OnOk result (writer.new.tokens ≡ complaint_object complaint.now) }
    ensures before { OnOk result (writer.new.before ≡ writer.old.before) }
{
    writer.begin_object()?;
    writer.key("line")?;
    writer.u64(complaint.line)?;
    writer.key("column")?;
    put_column(writer, complaint.column)?;
    writer.key("kind")?;
    writer.string(kind_name(complaint.rule))?;
    writer.key("rule")?;
    writer.string(rule_name(complaint.rule))?;
    writer.key("text")?;
    writer.string(text)?;
    writer.end_object()
}

/// Puts a column, or null where the whole line is meant.
fn put_column<A: Allocator>(writer: &mut Writer<A>, column: Option<u64>) -> Result<(), AllocError>
    ensures tokens { OnOk result (writer.new.tokens ≡ writer.old.tokens ++ column_token column ∷ []) }
    ensures before { OnOk result (writer.new.before ≡ writer.old.before) }
{
    match column {
        Some(column) => writer.u64(column),
        None => writer.null(),
    }
}

/// The kind of a rule.
fn kind_name(rule: Rule) -> &'static str
    ensures { result.now ≡ kind_name rule }
{
    match rule {
        Rule::Language(_) => "language",
        Rule::Port(_) => "port",
    }
}

/// The name of a rule.
fn rule_name(rule: Rule) -> &'static str
    ensures { result.now ≡ rule_name rule }
{
    match rule {
        Rule::Language(fault) => fault_name(fault),
        Rule::Port(limit) => limit_name(limit),
    }
}

/// The name of a rule of the language.
fn fault_name(fault: Fault) -> &'static str
    ensures { result.now ≡ fault_name fault }
{
    match fault {
        Fault::UnknownCommand => "UnknownCommand",
        Fault::MissingWord => "MissingWord",
        Fault::SpareWord => "SpareWord",
        Fault::SpareSpace => "SpareSpace",
        Fault::NotDecimal => "NotDecimal",
        Fault::LongNumber => "LongNumber",
        Fault::WideNumber => "WideNumber",
        Fault::LargeTag(_) => "LargeTag",
        Fault::LargeCount(_) => "LargeCount",
        Fault::LargeWord(_) => "LargeWord",
        Fault::NotHexadecimal => "NotHexadecimal",
        Fault::NotTwoDigits => "NotTwoDigits",
        Fault::NotSixtyFourDigits => "NotSixtyFourDigits",
        Fault::OddDigits => "OddDigits",
        Fault::LongRegister => "LongRegister",
        Fault::ManyTags => "ManyTags",
        Fault::HighByte => "HighByte",
        Fault::ByteOrderMark => "ByteOrderMark",
        Fault::CarriageReturn => "CarriageReturn",
        Fault::Tab => "Tab",
        Fault::ControlByte(_) => "ControlByte",
        Fault::LongLine => "LongLine",
        Fault::BeforeDisk => "BeforeDisk",
        Fault::SecondDisk => "SecondDisk",
    }
}

/// The name of a limit of the port, where the port has a refusal for it the refusal's.
fn limit_name(limit: Limit) -> &'static str
    ensures { result.now ≡ limit_name limit }
{
    match limit {
        Limit::NoSectors => "NoSectors",
        Limit::ManySectors(_) => "ManySectors",
        Limit::FarSector(_) => "FarSector",
        Limit::EmptyDisk => "EmptyDisk",
        Limit::LargeDisk(_) => "LargeDisk",
        Limit::NoSlots => "NoSlots",
        Limit::ManySlots(_) => "ManySlots",
        Limit::LargeFirst(_) => "LargeFirst",
        Limit::FarTag(_, _) => "FarTag",
        Limit::TagTwice(_) => "TagTwice",
        Limit::NoSuchSector(_, _) => Refusal::NoSuchSector.name(),
        Limit::Window(fault) => Refusal::from(fault).name(),
        Limit::Unaligned => Refusal::Unaligned.name(),
        Limit::NoSuchRegister => Refusal::NoSuchRegister.name(),
    }
}
