//! The text that a monitor reads.

ghost use Rattle.std.specs.Prelude.{◌≡◌, ◌++◌, IfOk, OnOk, decimal};
ghost use Rattle.server_metrics.specs.Text as spec;

use crate::{CallerRefusals, EventCounts, PostRefusals};
use itoa::Buffer;
use std::alloc::{AllocError, Global};

/// The sessions by what they wait for.
#[derive(Clone, Copy)]
pub struct SessionStates {
    /// For a command.
    pub idle: u64,
    /// For an article.
    pub sending: u64,
    /// For a commit.
    pub held: u64,
}

/// What a volume has, and what of it is used.
#[derive(Clone, Copy)]
pub struct VolumeCounts {
    /// The changes that were accepted since it was made.
    pub accepted: u64,
    /// Those of them that are durable.
    pub durable: u64,
    /// The articles that are in none of their groups any more.
    pub gone: u64,
    pub used_blocks: u64,
    pub blocks: u64,
    pub used_inodes: u64,
    pub inodes: u64,
}

/// What was asked of the device since the start of the server.
#[derive(Clone, Copy)]
pub struct CommitTimes {
    /// The batches that were committed.
    pub batches: u64,
    /// The syncs that were asked.
    pub syncs: u64,
    /// The commits whose times were measured.
    pub commits: u64,
    /// Their times in all, in microseconds.
    pub micros: u64,
}

/// What a monitor is told of a server at one moment.
#[derive(Clone, Copy)]
pub struct Metrics {
    pub sessions: SessionStates,
    /// Of its octets only those of sessions that ended. The text has those of all.
    pub events: EventCounts,
    pub volume: VolumeCounts,
    pub commits: CommitTimes,
    /// The octets that were read of callers.
    pub octets_in: u64,
    /// The octets that were written to them.
    pub octets_out: u64,
    /// The longest that a message waited for its answer since the last text, in microseconds.
    pub longest_micros: u64,
}

/// The text of what a monitor is told (docs/FORMATS.md): for each metric a line that says what it is, one with its
/// type, and its values.
#[tactic(auto, unfolding(crate::specs::Text::text_of))]
pub fn text(alloc: Global, metrics: &Metrics) -> Result<Vec<u8>, AllocError>
    ensures { IfOk result (λ text. text.items ≡ spec.text_of metrics.now) }
{
    let mut text = Vec::new(alloc);
    push_sessions(&mut text, metrics)?;
    push_posts(&mut text, &metrics.events)?;
    push_volume(&mut text, &metrics.volume)?;
    push_commits(&mut text, &metrics.commits)?;
    push_traffic(&mut text, metrics)?;
    Ok(text)
}

// ---- lines

/// Appends what a metric is, and its type.
#[tactic(auto, unfolding(crate::specs::Text::head))]
fn push_head(text: &mut Vec<u8>, name: &[u8], kind: &[u8], help: &[u8]) -> Result<(), AllocError>
    ensures { OnOk result (text.new.items ≡ text.old.items ++ spec.head name.now kind.now help.now) }
{
    push_pair(text, b"# HELP ", name)?;
    push_pair(text, b" ", help)?;
    push_pair(text, b"\n# TYPE ", name)?;
    push_pair(text, b" ", kind)?;
    text.push(b'\n')?;
    Ok(())
}

/// Appends two texts.
fn push_pair(text: &mut Vec<u8>, first: &[u8], second: &[u8]) -> Result<(), AllocError>
    ensures { OnOk result (text.new.items ≡ text.old.items ++ first.now ++ second.now) }
{
    text.extend_from_slice(first)?;
    text.extend_from_slice(second)
}

/// Appends a number.
fn push_number(text: &mut Vec<u8>, n: u64) -> Result<(), AllocError>
    ensures { OnOk result (text.new.items ≡ text.old.items ++ decimal n) }
{
    let mut buffer = Buffer::new();
    text.extend_from_slice(buffer.format(n).as_bytes())
}

/// Appends a value.
#[tactic(auto, unfolding(crate::specs::Text::sample))]
fn push_sample(text: &mut Vec<u8>, name: &[u8], n: u64) -> Result<(), AllocError>
    ensures { OnOk result (text.new.items ≡ text.old.items ++ spec.sample name.now n) }
{
    push_pair(text, name, b" ")?;
    push_number(text, n)?;
    text.push(b'\n')?;
    Ok(())
}

/// Appends a number of microseconds as one of seconds.
#[tactic(auto, unfolding(crate::specs::Text::seconds))]
fn push_seconds(text: &mut Vec<u8>, name: &[u8], micros: u64) -> Result<(), AllocError>
    ensures { OnOk result (text.new.items ≡ text.old.items ++ spec.seconds name.now micros) }
{
    push_pair(text, name, b" ")?;
    push_number(text, micros)?;
    text.extend_from_slice(b"e-6\n")
}

/// Appends a value of several, told apart by a label.
#[tactic(auto, unfolding(crate::specs::Text::labelled))]
fn push_labelled(text: &mut Vec<u8>, labels: &[u8], word: &[u8], n: u64) -> Result<(), AllocError>
    ensures { OnOk result (text.new.items ≡ text.old.items ++ spec.labelled labels.now word.now n) }
{
    push_pair(text, labels, word)?;
    text.extend_from_slice(b"\"} ")?;
    push_number(text, n)?;
    text.push(b'\n')?;
    Ok(())
}

/// Appends a metric with one value, which only grows.
#[tactic(auto, unfolding(crate::specs::Text::counter))]
fn push_counter(text: &mut Vec<u8>, name: &[u8], help: &[u8], n: u64) -> Result<(), AllocError>
    ensures { OnOk result (text.new.items ≡ text.old.items ++ spec.counter name.now help.now n) }
{
    push_head(text, name, b"counter", help)?;
    push_sample(text, name, n)
}

/// Appends a metric with one value, which rises and falls.
#[tactic(auto, unfolding(crate::specs::Text::gauge))]
fn push_gauge(text: &mut Vec<u8>, name: &[u8], help: &[u8], n: u64) -> Result<(), AllocError>
    ensures { OnOk result (text.new.items ≡ text.old.items ++ spec.gauge name.now help.now n) }
{
    push_head(text, name, b"gauge", help)?;
    push_sample(text, name, n)
}

// ---- sessions and callers

/// Appends the sessions by what they wait for.
fn push_states(text: &mut Vec<u8>, states: &SessionStates) -> Result<(), AllocError>
    ensures { OnOk result (text.new.items ≡ text.old.items ++ spec.states states.now) }
{
    push_head(
        text,
        b"newsd_sessions",
        b"gauge",
        b"Sessions by what they wait for: a command, an article, or a commit.",
    )?;
    push_labelled(text, b"newsd_sessions{state=\"", b"idle", states.idle)?;
    push_labelled(text, b"newsd_sessions{state=\"", b"sending", states.sending)?;
    push_labelled(text, b"newsd_sessions{state=\"", b"held", states.held)
}

/// Appends the callers that got no session, by the cause.
fn push_callers(text: &mut Vec<u8>, callers: &CallerRefusals) -> Result<(), AllocError>
    ensures { OnOk result (text.new.items ≡ text.old.items ++ spec.callers callers.now) }
{
    push_head(
        text,
        b"newsd_callers_refused_total",
        b"counter",
        b"Callers that got no session, by the cause.",
    )?;
    push_first_callers(text, callers)?;
    push_other_callers(text, callers)
}

/// Appends the first four causes.
fn push_first_callers(text: &mut Vec<u8>, callers: &CallerRefusals) -> Result<(), AllocError>
    ensures { OnOk result (text.new.items ≡ text.old.items ++ spec.first_callers callers.now) }
{
    push_labelled(
        text,
        b"newsd_callers_refused_total{cause=\"",
        b"access",
        callers.access,
    )?;
    push_labelled(
        text,
        b"newsd_callers_refused_total{cause=\"",
        b"sessions",
        callers.sessions,
    )?;
    push_labelled(
        text,
        b"newsd_callers_refused_total{cause=\"",
        b"address",
        callers.address,
    )?;
    push_labelled(
        text,
        b"newsd_callers_refused_total{cause=\"",
        b"descriptors",
        callers.descriptors,
    )
}

/// Appends the other four causes.
fn push_other_callers(text: &mut Vec<u8>, callers: &CallerRefusals) -> Result<(), AllocError>
    ensures { OnOk result (text.new.items ≡ text.old.items ++ spec.other_callers callers.now) }
{
    push_labelled(
        text,
        b"newsd_callers_refused_total{cause=\"",
        b"memory",
        callers.memory,
    )?;
    push_labelled(
        text,
        b"newsd_callers_refused_total{cause=\"",
        b"failed",
        callers.failed,
    )?;
    push_labelled(
        text,
        b"newsd_callers_refused_total{cause=\"",
        b"proxy",
        callers.proxy,
    )?;
    push_labelled(
        text,
        b"newsd_callers_refused_total{cause=\"",
        b"halted",
        callers.halted,
    )
}

/// Appends what is told of sessions and callers.
fn push_sessions(text: &mut Vec<u8>, metrics: &Metrics) -> Result<(), AllocError>
    ensures { OnOk result (text.new.items ≡ text.old.items ++ spec.sessions metrics.now) }
{
    push_states(text, &metrics.sessions)?;
    push_counter(
        text,
        b"newsd_sessions_begun_total",
        b"Sessions that began.",
        metrics.events.begun,
    )?;
    push_counter(
        text,
        b"newsd_sessions_ended_total",
        b"Sessions that ended.",
        metrics.events.ended,
    )?;
    push_callers(text, &metrics.events.callers)
}

// ---- posts

/// Appends the causes that lie in the lines of an article.
fn push_form_causes(text: &mut Vec<u8>, posts: &PostRefusals) -> Result<(), AllocError>
    ensures { OnOk result (text.new.items ≡ text.old.items ++ spec.form_causes posts.now) }
{
    push_labelled(
        text,
        b"newsd_posts_refused_total{cause=\"",
        b"octets",
        posts.octets,
    )?;
    push_labelled(
        text,
        b"newsd_posts_refused_total{cause=\"",
        b"noend",
        posts.no_end,
    )?;
    push_labelled(
        text,
        b"newsd_posts_refused_total{cause=\"",
        b"field",
        posts.field,
    )?;
    push_labelled(
        text,
        b"newsd_posts_refused_total{cause=\"",
        b"twice",
        posts.twice,
    )?;
    push_labelled(
        text,
        b"newsd_posts_refused_total{cause=\"",
        b"missing",
        posts.missing,
    )
}

/// Appends those that lie in its contents.
fn push_fields_causes(text: &mut Vec<u8>, posts: &PostRefusals) -> Result<(), AllocError>
    ensures { OnOk result (text.new.items ≡ text.old.items ++ spec.fields_causes posts.now) }
{
    push_labelled(text, b"newsd_posts_refused_total{cause=\"", b"id", posts.id)?;
    push_labelled(
        text,
        b"newsd_posts_refused_total{cause=\"",
        b"groups",
        posts.groups,
    )?;
    push_labelled(
        text,
        b"newsd_posts_refused_total{cause=\"",
        b"long",
        posts.long,
    )
}

/// Appends those that lie in what was accepted before it.
fn push_spool_causes(text: &mut Vec<u8>, posts: &PostRefusals) -> Result<(), AllocError>
    ensures { OnOk result (text.new.items ≡ text.old.items ++ spec.spool_causes posts.now) }
{
    push_labelled(
        text,
        b"newsd_posts_refused_total{cause=\"",
        b"repeat",
        posts.repeat,
    )?;
    push_labelled(
        text,
        b"newsd_posts_refused_total{cause=\"",
        b"nogroup",
        posts.no_group,
    )?;
    push_labelled(
        text,
        b"newsd_posts_refused_total{cause=\"",
        b"closed",
        posts.closed,
    )?;
    push_labelled(
        text,
        b"newsd_posts_refused_total{cause=\"",
        b"otherid",
        posts.other_id,
    )
}

/// Appends those that lie in the server.
fn push_server_causes(text: &mut Vec<u8>, posts: &PostRefusals) -> Result<(), AllocError>
    ensures { OnOk result (text.new.items ≡ text.old.items ++ spec.server_causes posts.now) }
{
    push_labelled(
        text,
        b"newsd_posts_refused_total{cause=\"",
        b"full",
        posts.full,
    )?;
    push_labelled(
        text,
        b"newsd_posts_refused_total{cause=\"",
        b"memory",
        posts.memory,
    )?;
    push_labelled(
        text,
        b"newsd_posts_refused_total{cause=\"",
        b"stopped",
        posts.stopped,
    )
}

/// Appends the posts and transfers that were refused, by the cause.
fn push_refused(text: &mut Vec<u8>, posts: &PostRefusals) -> Result<(), AllocError>
    ensures { OnOk result (text.new.items ≡ text.old.items ++ spec.refused posts.now) }
{
    push_head(
        text,
        b"newsd_posts_refused_total",
        b"counter",
        b"Posts and transfers that were refused, by the cause.",
    )?;
    push_form_causes(text, posts)?;
    push_fields_causes(text, posts)?;
    push_spool_causes(text, posts)?;
    push_server_causes(text, posts)
}

/// Appends what is told of posts and transfers.
fn push_posts(text: &mut Vec<u8>, events: &EventCounts) -> Result<(), AllocError>
    ensures { OnOk result (text.new.items ≡ text.old.items ++ spec.posts events.now) }
{
    push_counter(
        text,
        b"newsd_posts_accepted_total",
        b"Posts and transfers that were accepted.",
        events.taken,
    )?;
    push_refused(text, &events.posts)
}

// ---- the volume and its device

/// Appends the changes of a volume, and the articles that are gone.
fn push_changes(text: &mut Vec<u8>, volume: &VolumeCounts) -> Result<(), AllocError>
    ensures { OnOk result (text.new.items ≡ text.old.items ++ spec.changes volume.now) }
{
    push_counter(
        text,
        b"newsd_changes_accepted_total",
        b"Changes of the volume that were accepted.",
        volume.accepted,
    )?;
    push_counter(
        text,
        b"newsd_changes_durable_total",
        b"Changes of the volume that are durable.",
        volume.durable,
    )?;
    push_gauge(
        text,
        b"newsd_articles_gone",
        b"Articles that are in none of their groups any more; a renewal makes husks of them.",
        volume.gone,
    )
}

/// Appends what a volume has, and what of it is used.
fn push_volume(text: &mut Vec<u8>, volume: &VolumeCounts) -> Result<(), AllocError>
    ensures { OnOk result (text.new.items ≡ text.old.items ++ spec.volume volume.now) }
{
    push_changes(text, volume)?;
    push_gauge(
        text,
        b"newsd_blocks",
        b"Blocks of the volume, used or free.",
        volume.blocks,
    )?;
    push_gauge(
        text,
        b"newsd_blocks_used",
        b"Blocks that are used as of the last batch.",
        volume.used_blocks,
    )?;
    push_gauge(
        text,
        b"newsd_inodes",
        b"Inodes of the volume, used or free.",
        volume.inodes,
    )?;
    push_gauge(
        text,
        b"newsd_inodes_used",
        b"Inodes that are used.",
        volume.used_inodes,
    )
}

/// Appends the times of commits.
fn push_times(text: &mut Vec<u8>, commits: &CommitTimes) -> Result<(), AllocError>
    ensures { OnOk result (text.new.items ≡ text.old.items ++ spec.times commits.now) }
{
    push_head(
        text,
        b"newsd_commit_seconds",
        b"summary",
        b"Times of commits: two syncs, and the writes before each.",
    )?;
    push_seconds(text, b"newsd_commit_seconds_sum", commits.micros)?;
    push_sample(text, b"newsd_commit_seconds_count", commits.commits)
}

/// Appends what is told of the device.
fn push_commits(text: &mut Vec<u8>, commits: &CommitTimes) -> Result<(), AllocError>
    ensures { OnOk result (text.new.items ≡ text.old.items ++ spec.commits commits.now) }
{
    push_counter(
        text,
        b"newsd_batches_total",
        b"Batches that were committed.",
        commits.batches,
    )?;
    push_counter(
        text,
        b"newsd_syncs_total",
        b"Syncs that were asked of the device.",
        commits.syncs,
    )?;
    push_times(text, commits)
}

// ---- traffic and waits

/// Appends the longest wait.
fn push_wait(text: &mut Vec<u8>, metrics: &Metrics) -> Result<(), AllocError>
    ensures { OnOk result (text.new.items ≡ text.old.items ++ spec.wait metrics.now) }
{
    push_head(
        text,
        b"newsd_kernel_wait_seconds_max",
        b"gauge",
        b"The longest that a message waited for its answer since the last writing.",
    )?;
    push_seconds(
        text,
        b"newsd_kernel_wait_seconds_max",
        metrics.longest_micros,
    )
}

/// Appends the octets that were read and written, and the longest wait.
fn push_traffic(text: &mut Vec<u8>, metrics: &Metrics) -> Result<(), AllocError>
    ensures { OnOk result (text.new.items ≡ text.old.items ++ spec.traffic metrics.now) }
{
    push_counter(
        text,
        b"newsd_received_bytes_total",
        b"Octets that were read of callers.",
        metrics.octets_in,
    )?;
    push_counter(
        text,
        b"newsd_sent_bytes_total",
        b"Octets that were written to callers.",
        metrics.octets_out,
    )?;
    push_wait(text, metrics)
}
