// The listed days valued along a curve's lines.
ghost use Rattle.std.specs.Prelude.{◌≡◌, ◌≤◌, nat_abs};
ghost use Rattle.netting.specs.Netting.{worth, cheap_on};
ghost use Rattle.estimate.specs.Lines.{line_of, rate_on, Ahead, Drawn};
ghost use Rattle.estimate.specs.Values.{along_to, most_size, Ready};

use super::lines::{Line, line_of};
use cheap::factor::factor;
use curve::Node;
use logarithm::tables::Tables;
use netting::value::worth;

// A first part of the listed days: how many they are, and what their net amounts are worth.
#[derive(Clone, Copy)]
pub struct Part {
    pub done: usize,
    pub value: i64,
}

// What a net amount is worth on its day, at the line's rate.
fn day_value(line: Line, day: u64, net: i64, tables: Tables<'_>) -> i64
    requires { Drawn line day × (nat_abs net ≤ most_size) }
    ensures { result ≡ worth (cheap_on (rate_on line) day) net }
{
    worth(net, factor(tables, line.rate_on(day), day))
}

impl Part {
    // With the days before place `end` of the list, at a line's rates.
    pub fn along(
        self,
        line: Line,
        end: usize,
        days: &[u16],
        nets: &[i64],
        tables: Tables<'_>,
    ) -> Part
        requires { Ready line end nets.now days.now self }
        ensures { result ≡ along_to line end nets.now days.now self }
    {
        let mut value = self.value;
        for day in &days[self.done..end] {
            let at = usize::from(*day);
            value += day_value(line, at as u64, nets[at], tables);
        }
        Part { done: end, value }
    }

    // The same between two nodes. Where there are no such days, no line is drawn.
    pub fn between(
        self,
        a: Node,
        b: Node,
        end: usize,
        days: &[u16],
        nets: &[i64],
        tables: Tables<'_>,
    ) -> Part
        requires { Ahead a b × Ready (line_of a b) end nets.now days.now self }
        ensures { result ≡ along_to (line_of a b) end nets.now days.now self }
    {
        if self.done == end {
            return self;
        }
        self.along(line_of(a, b), end, days, nets, tables)
    }
}
