//! When workers rest or are given up, how many of them are given a batch, and how many of its packets they evaluate
//! ahead.
//!
//! The answers depend on what batches came to, and on no clock. So costs are counted in rules: one rule is the time
//! that it takes to test it on a packet. It is 31 ns on the machine of the last measurements (`bench/README.md`,
//! `ranges`), and about 16 ns on one of twice its speed. A rule that is passed over takes next to nothing.

// What things cost, in rules.

/// Handing a result over: 23 rules were measured, and the rest is a margin.
const HANDING: u64 = 30;

/// Having a worker begin a batch, which is reckoned as 12 us: it is woken, and may take the processor of the calling
/// thread.
const STARTING: u64 = 750;

/// Showing workers a change of the table: two more copies take it over. If many packets change it, that is a third of a
/// run's time.
const SHOWING: u64 = 50;

/// Evaluating a packet ahead, beside its own rules.
const EVALUATING: u64 = 50;

/// Taking over a packet whose result holds. It takes somewhat less, but one worker too many slows all threads down.
const TAKING: u64 = 50;

/// The further cost of a packet that changes the table. If each packet makes a state after 1000 rules, three workers
/// keep up: on four processors the run is 2.6 times as quick as without workers, and 2.4 times with a fourth one.
const CHANGING: u64 = 150;

// Numbers of packets.

/// The packets that are evaluated ahead before it is judged whether that pays. A trial that doesn't pay is lost, so
/// they are few.
const TRIAL: u64 = 256;

/// The packets of the first rest. The table is shown meanwhile, in vain if workers are given up after it, so they are
/// few.
const FIRST_REST: u64 = 1024;

/// How many times as long as the rest before it a rest is.
const GROWTH: u64 = 4;

/// The packets of the longest rest. A long run that workers don't serve tries them with one packet in a thousand.
const LONGEST_REST: u64 = 262_144;

/// The packets that have to come before the number of rules tested on a packet is estimated again.
const LOOKS: u64 = 8;

/// Many packets change the table if one in eight does.
const FEW: u64 = 8;

/// The packets that tell whether many change the table: those of a trial and of the first rest.
const ENOUGH: u64 = TRIAL + FIRST_REST;

/// What a batch came to, once it is taken.
#[derive(Clone, Copy)]
pub struct BatchReport {
    /// The number of its packets.
    pub packets: u64,
    /// How many of them were given to workers, its first ones: 0 while workers rest.
    pub evaluated_ahead: u64,
    /// How many the committer evaluated itself: those without a result, and those whose result didn't hold.
    pub rerun: u64,
    /// How many changes of the table they made.
    pub changes: u64,
    /// How many rules were tested on them, in all. A rule that is passed over costs nothing, and isn't counted.
    pub asked_rules: u64,
}

/// Says of each batch how many of its packets workers evaluate ahead, and how many workers do.
///
/// A result that holds saves testing the rules. But each result has to be handed over, each worker has to begin each
/// batch, and each change of the table has to be shown. So workers pay if many rules are tested on a packet and results
/// hold. They don't if packets match states that packets of the same batch change. After a batch that didn't pay
/// workers rest, and are tried again after that. Once a batch has paid, the next one is given to the fewest workers
/// that keep up with the committer.
///
/// If the ruleset has too few rules for workers, they are given up as soon as they are judged. The table that they look
/// at takes each change while they rest, too. So if many packets change it, they are given up once enough packets have
/// come to tell: at once if they never paid, else after they didn't pay twice.
#[derive(Clone, Copy)]
pub struct Pace {
    workers: u64,
    /// The number of rules of the ruleset.
    rules: u64,
    /// How many rules are tested on a packet: all of them until batches have told.
    asked: u64,
    /// The packets that came since `asked` was estimated last, and how many rules were tested on them in all.
    seen_packets: u64,
    seen_rules: u64,
    /// How many packets were evaluated ahead so far.
    evaluated: u64,
    /// Whether the batch that was judged last paid, and whether any did.
    pays: bool,
    has_paid: bool,
    /// How many workers keep up with the committer: all of them until a batch has paid.
    needed: u64,
    /// For how many packets workers rest from here on, and for how many they do the next time.
    resting: u64,
    next_rest: u64,
    /// The packets that came since a batch was judged last, and how many changes of the table they made.
    taken: u64,
    changed: u64,
    given_up: bool,
}

/// The fewest workers that evaluate the packets of a batch more quickly than the committer takes them over, if `asked`
/// rules are tested on each packet.
fn fewest_for(asked: u64, batch: BatchReport) -> u64 {
    let evaluating = asked
        .saturating_add(EVALUATING)
        .saturating_mul(batch.packets);
    let taking = batch.packets.saturating_mul(TAKING);
    let changing = batch.changes.saturating_mul(CHANGING);
    let slower = evaluating / taking.saturating_add(changing).max(1);
    slower.saturating_add(1)
}

impl Pace {
    /// The pace of a run with `workers` workers by a ruleset with `rules` rules, before its first batch.
    pub fn new(rules: u64, workers: u64) -> Pace {
        Pace {
            workers,
            rules,
            asked: rules,
            seen_packets: 0,
            seen_rules: 0,
            evaluated: 0,
            pays: false,
            has_paid: false,
            needed: workers,
            resting: 0,
            next_rest: FIRST_REST,
            taken: 0,
            changed: 0,
            given_up: false,
        }
    }

    /// Whether workers are given up for good.
    pub fn has_given_up(&self) -> bool {
        self.given_up
    }

    /// Whether no packet of the next batch is evaluated ahead.
    pub fn rests(&self) -> bool {
        self.given_up || self.resting > 0
    }

    /// How many packets of the next batch are evaluated ahead at most, its first ones: none while workers rest, 256
    /// until a batch has shown that workers pay, and then all.
    pub fn ahead(&self) -> u64 {
        if self.rests() {
            0
        } else if self.pays {
            u64::MAX
        } else {
            TRIAL
        }
    }

    /// How many workers are given the next batch: none while they rest.
    pub fn workers(&self) -> u64 {
        if self.rests() { 0 } else { self.needed }
    }

    /// Whether no further batch is opened while the open ones have `open_packets` packets in all. As long as it isn't
    /// known whether workers pay, 256 packets tell.
    pub fn waits(&self, open_packets: u64) -> bool {
        !self.pays && open_packets >= TRIAL
    }

    /// Takes note of a batch that was taken. Batches come in their order.
    pub fn note(&mut self, batch: BatchReport) {
        self.estimate(batch);
        self.taken = self.taken.saturating_add(batch.packets);
        self.changed = self.changed.saturating_add(batch.changes);
        if self.rests() || batch.evaluated_ahead == 0 {
            self.resting = self.resting.saturating_sub(batch.packets);
            return;
        }
        self.evaluated = self.evaluated.saturating_add(batch.evaluated_ahead);
        if self.evaluated >= TRIAL {
            self.judge(batch);
        }
    }

    /// Estimates how many rules are tested on a packet, if enough packets have come since that was done last.
    fn estimate(&mut self, batch: BatchReport) {
        self.seen_packets = self.seen_packets.saturating_add(batch.packets);
        self.seen_rules = self.seen_rules.saturating_add(batch.asked_rules);
        if self.seen_packets >= LOOKS {
            self.asked = self.seen_rules / self.seen_packets;
            self.seen_packets = 0;
            self.seen_rules = 0;
        }
    }

    /// Judges by a batch whether workers pay.
    fn judge(&mut self, batch: BatchReport) {
        self.pays = self.pays_for(batch);
        if self.pays {
            self.needed = fewest_for(self.asked, batch).min(self.workers);
            self.has_paid = true;
            self.next_rest = FIRST_REST;
        } else {
            self.rest();
        }
        self.taken = 0;
        self.changed = 0;
    }

    /// What a result that holds saves, in rules, if `asked` rules are tested on a packet. The committer could test as
    /// many as one worker meanwhile, so one worker alone saves nothing.
    fn saves(&self, asked: u64) -> u64 {
        asked.saturating_sub(asked / self.workers.max(1))
    }

    /// Whether it pays to evaluate a whole batch ahead, if the same share of results holds as of those evaluated in
    /// `batch`.
    fn pays_for(&self, batch: BatchReport) -> bool {
        let handing = batch.packets.saturating_mul(HANDING);
        let starting = self.needed.saturating_mul(STARTING);
        let showing = batch.changes.saturating_mul(SHOWING);
        let costs = handing.saturating_add(starting).saturating_add(showing);
        let held = batch.packets.saturating_sub(batch.rerun);
        let saved = held
            .saturating_mul(self.saves(self.asked))
            .saturating_mul(batch.packets);
        saved >= batch.evaluated_ahead.saturating_mul(costs)
    }

    /// Whether the ruleset has enough rules for workers to pay.
    fn may_pay(&self) -> bool {
        self.saves(self.rules) >= HANDING
    }

    /// Whether many packets change the table, once enough have come to tell.
    fn many_change(&self) -> bool {
        self.taken >= ENOUGH && self.changed.saturating_mul(FEW) >= self.taken
    }

    /// Has workers rest, or gives them up.
    fn rest(&mut self) {
        let is_again = self.next_rest > FIRST_REST;
        let has_failed = is_again || !self.has_paid;
        self.given_up = !self.may_pay() || (has_failed && self.many_change());
        self.resting = self.next_rest;
        self.next_rest = self.next_rest.saturating_mul(GROWTH).min(LONGEST_REST);
    }
}
