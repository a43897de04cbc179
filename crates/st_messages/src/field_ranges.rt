// Whether each field of a message is in its range.
ghost use Rattle.std.specs.Prelude.{◌≡◌, ◌&&◌, ◌-◌};
ghost use Rattle.st_messages.specs.Kinds as kinds;
ghost use Rattle.st_messages.specs.Ranges as fits;

use crate::answer::AppAnswer;
use crate::ask::Ask;
use crate::kind::Kind;
use crate::message::{Body, DiskResult, Header, Message, NameOp, NameReply};
use crate::range::{
    has_length, is_any_block, is_count, is_file, is_grant, is_held, is_ino, is_number, is_page,
    is_reduced, is_same_block, is_tag, is_word, within,
};
use crate::row::{extents_fit, locks_fit, lost_fit, names_fit};
use st_base::{BlockAt, Command, Name, NameAsk, PageBytes};

fn is_dir_name(least: usize, dir: u32, name: &Name) -> bool
    ensures { result ≡ fits.is_dir_name least dir name.now }
{
    is_ino(dir) && has_length(least, 255, name.as_slice())
}

#[tactic(auto, unfolding(crate::specs::Ranges::is_name_op))]
fn name_op_fits(op: &NameOp) -> bool
    ensures { result ≡ fits.is_name_op op.now }
{
    match op {
        NameOp::Lookup { dir, name } => is_dir_name(1, *dir, name),
        NameOp::Create { dir, name } => is_dir_name(1, *dir, name),
        NameOp::Mkdir { dir, name } => is_dir_name(1, *dir, name),
        NameOp::Remove { dir, name, g } => {
            is_ino(*dir) && has_length(1, 255, name.as_slice()) && is_grant(*g)
        }
        NameOp::Rename {
            dir,
            name,
            dir2,
            name2,
        } => is_dir_name(1, *dir, name) && is_dir_name(1, *dir2, name2),
        NameOp::List { dir, after } => is_dir_name(0, *dir, after),
    }
}

#[tactic(auto, unfolding(crate::specs::Ranges::is_name_ask))]
fn name_ask_fits(ask: &NameAsk) -> bool
    ensures { result ≡ fits.is_name_ask ask.now }
{
    match ask {
        NameAsk::Lookup { dir, name } => is_dir_name(1, *dir, name),
        NameAsk::Create { dir, name } => is_dir_name(1, *dir, name),
        NameAsk::Mkdir { dir, name } => is_dir_name(1, *dir, name),
        NameAsk::Remove { dir, name, ino } => {
            is_ino(*dir) && has_length(1, 255, name.as_slice()) && is_number(*ino)
        }
        NameAsk::Rename {
            dir,
            name,
            dir2,
            name2,
        } => is_dir_name(1, *dir, name) && is_dir_name(1, *dir2, name2),
        NameAsk::List { dir, after } => is_dir_name(0, *dir, after),
    }
}

#[tactic(auto, unfolding(crate::specs::Ranges::is_name_reply))]
fn name_reply_fits(reply: &NameReply) -> bool
    ensures { result ≡ fits.is_name_reply reply.now }
{
    match reply {
        NameReply::Ino(ino) => is_ino(*ino),
        NameReply::Listed(rows) => names_fit(rows),
        NameReply::Refused(code) => within(1, 8, u64::from(*code)),
    }
}

fn page_fits(bytes: &PageBytes) -> bool
    ensures { result ≡ fits.is_whole_page bytes.now }
{
    bytes.len() == PageBytes::LEN
}

#[tactic(auto, unfolding(crate::specs::Ranges::is_ask))]
fn ask_fits(ask: &Ask) -> bool
    ensures { result ≡ fits.is_ask ask.now }
{
    match ask {
        Ask::Write(file, page, bytes) => {
            is_file(1, *file) && is_page(page.0) && page_fits(bytes)
        }
        Ask::Read(file, page) => is_file(1, *file) && is_page(page.0),
        Ask::Sync(file) => is_file(1, *file),
        Ask::Cut(file, page) => is_file(1, *file) && is_page(page.0),
        Ask::Name(server, ask) => within(1, 65_535, u64::from(server.0)) && name_ask_fits(ask),
        Ask::Patch(file, page, at, bytes) => {
            is_file(1, *file) && is_page(page.0) && patch_fits(*at, bytes.as_slice())
        }
    }
}

fn patch_fits(at: u16, bytes: &[u8]) -> bool
    ensures { result ≡ (kinds.between 0 4095 at && fits.has_length 1 (4096 - at) bytes.now) }
{
    at <= 4_095 && has_length(1, 4_096 - at as usize, bytes)
}

#[tactic(auto, unfolding(crate::specs::Ranges::is_answer))]
fn answer_fits(answer: &AppAnswer) -> bool
    ensures { result ≡ fits.is_answer answer.now }
{
    match answer {
        AppAnswer::Read(bytes) => page_fits(bytes),
        AppAnswer::Named(ino) => is_ino(*ino),
        AppAnswer::Listed(rows) => names_fit(rows),
        AppAnswer::NoSpace(free, asked) => is_word(*free) && is_word(*asked),
        AppAnswer::DiskFault(command) => is_word(*command),
        AppAnswer::Uncertain(old, new) => is_word(*old) && is_word(*new),
        AppAnswer::Lost(rows) => lost_fit(rows),
        _ => true,
    }
}

#[tactic(auto, unfolding(crate::specs::Ranges::is_command))]
fn command_fits(at: BlockAt, command: &Command) -> bool
    ensures { result ≡ fits.is_command at command.now }
{
    match command {
        Command::Read { at: there } => is_same_block(at, *there),
        Command::Write {
            at: there,
            tag,
            bytes,
        } => is_same_block(at, *there) && is_tag(1, *tag) && page_fits(bytes),
    }
}

#[tactic(auto, unfolding(crate::specs::Ranges::is_disk_result))]
fn disk_result_fits(ending: &DiskResult) -> bool
    ensures { result ≡ fits.is_disk_result ending.now }
{
    match ending {
        DiskResult::ReadDone(tag, bytes) => is_tag(0, *tag) && page_fits(bytes),
        _ => true,
    }
}

fn nodes_fit(kind: Kind, header: &Header) -> bool
    ensures { result ≡ fits.are_nodes kind header.now }
{
    kind.sender().includes(header.from) && kind.receiver().includes(header.to)
}

fn ages_fit(kind: Kind, header: &Header) -> bool
    ensures { result ≡ fits.are_ages kind header.now }
{
    kind.life().allows(header.life) && kind.epoch().allows(header.epoch)
}

fn marks_fit(kind: Kind, header: &Header) -> bool
    ensures { result ≡ fits.are_marks kind header.now }
{
    kind.request().allows(header.number) && kind.stamp().allows(header.stamp)
}

#[tactic(auto, unfolding(crate::specs::Ranges::is_header))]
fn header_fits(kind: Kind, header: &Header) -> bool
    ensures { result ≡ fits.is_header kind header.now }
{
    nodes_fit(kind, header) && ages_fit(kind, header) && marks_fit(kind, header)
}

impl Body {
    /// Returns the kind of a message with this body.
    pub fn kind(&self) -> Kind
        ensures { result ≡ kinds.kind_of_body self.now }
    {
        match self {
            Body::Hello => Kind::Hello,
            Body::KeepAlive => Kind::KeepAlive,
            Body::Acquire { .. } => Kind::Acquire,
            Body::Released { .. } => Kind::Released,
            Body::Map { .. } => Kind::Map,
            Body::Allocate { .. } => Kind::Allocate,
            Body::Cut { .. } => Kind::Cut,
            Body::Name(_) => Kind::Name,
            Body::Reassert(_) => Kind::Reassert,
            Body::DemandSeen { .. } => Kind::DemandSeen,
            Body::Welcome => Kind::Welcome,
            Body::Ack => Kind::Ack,
            Body::Nack { .. } => Kind::Nack,
            Body::Granted { .. } => Kind::Granted,
            Body::Queued { .. } => Kind::Queued,
            Body::Demand { .. } => Kind::Demand,
            Body::Extents { .. } => Kind::Extents,
            Body::Named(_) => Kind::Named,
            Body::Reasserted => Kind::Reasserted,
            Body::Tick => Kind::Tick,
            Body::App { op: _, ask } => ask.kind(),
            Body::AppDone { .. } => Kind::AppDone,
            Body::Submit { .. } => Kind::Submit,
            Body::Done { .. } => Kind::Done,
        }
    }

    #[tactic(auto, unfolding(crate::specs::Ranges::is_body))]
    fn fits(&self) -> bool
        ensures { result ≡ fits.is_body self.now }
    {
        match self {
            Body::Acquire { ino, mode } => is_ino(*ino) && is_held(*mode),
            Body::Released { ino, g, to } => is_ino(*ino) && is_grant(*g) && is_reduced(*to),
            Body::Map { ino, g, page } => is_ino(*ino) && is_grant(*g) && is_page(page.0),
            Body::Allocate {
                ino,
                g,
                page,
                count,
            } => is_ino(*ino) && is_grant(*g) && is_page(page.0) && is_count(page.0, *count),
            Body::Cut { ino, g, from } => is_ino(*ino) && is_grant(*g) && is_page(from.0),
            Body::Name(op) => name_op_fits(op),
            Body::Reassert(rows) => locks_fit(rows),
            Body::DemandSeen { ino, g } => is_ino(*ino) && is_grant(*g),
            Body::Nack { why: _, a, b } => is_word(*a) && is_word(*b),
            Body::Granted { ino, g, mode } => is_ino(*ino) && is_grant(*g) && is_held(*mode),
            Body::Queued { ino, mode } => is_ino(*ino) && is_held(*mode),
            Body::Demand { ino, g, to } => is_ino(*ino) && is_grant(*g) && is_reduced(*to),
            Body::Extents { ino, rows } => is_ino(*ino) && extents_fit(rows),
            Body::Named(reply) => name_reply_fits(reply),
            Body::App { op, ask } => is_number(*op) && ask_fits(ask),
            Body::AppDone { op, answer } => is_number(*op) && answer_fits(answer),
            Body::Submit { command, at, what } => {
                is_word(*command) && is_any_block(*at) && command_fits(*at, what)
            }
            Body::Done { command, result } => is_word(*command) && disk_result_fits(result),
            _ => true,
        }
    }
}

impl Ask {
    fn kind(&self) -> Kind
        ensures { result ≡ kinds.kind_of_ask self.now }
    {
        match self {
            Ask::Patch(..) => Kind::Patch,
            _ => Kind::App,
        }
    }
}

impl Message {
    /// Returns whether every field is in its range (`docs/PROTOCOL.md`, "Wire"), so that the
    /// message has a spelling. It does not allocate.
    #[tactic(auto, unfolding(crate::specs::Ranges::fits))]
    pub fn fits(&self) -> bool
        ensures { result ≡ fits.fits self.now }
    {
        header_fits(self.body.kind(), &self.header) && self.body.fits()
    }
}
