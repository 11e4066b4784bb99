// The tables that are printed of a game that is taught: counters by name for a person; ranks, nodes and bits, refusals and the graph for a program.
ghost use Rattle.std.specs.Prelude.{◌≡◌, slice_range};
ghost use Rattle.lines.specs.Words.{end_from};

use answers::Said;
use games::Game;
use lines::Part;
use rules::{Refusal, SearchCounts};
use std::io;

/// A game that is taught: its text, what its file says, and its graph.
#[derive(Clone, Copy)]
pub(crate) struct Taught<'a> {
    pub text: &'a [u8],
    pub game: Game,
    pub wholes: &'a [u32],
    pub lanes: &'a [f32],
    pub queries: &'a [f32],
    pub graph: &'a [u32],
}

// The tables of the queries.
#[derive(Clone, Copy, Debug, PartialEq, Eq)]
enum Table {
    Person,
    Ranks,
    Refusals,
}

/// The words of a line from a place on.
pub(crate) fn words(text: &[u8], from: usize) -> &[u8]
    ensures { result.now ≡ slice_range text.now from (end_from Part.Words text.now from) }
{
    let end = lines::find(text, from, Part::Words);
    text.get(from..end).unwrap_or(&[])
}

/// Prints a refusal by its number and places.
pub(crate) fn put_refusal(rt: &impl Print, r: Refusal) -> io::Result<()> {
    let mut page: [u8; 64] = [0; 64];
    let end = refusals::put_refusal(&mut page, 0, r);
    rt.write_all(pages::text(&page, end))
}

impl Taught<'_> {
    /// Prints all tables.
    pub(crate) fn put(&self, rt: &impl Print) -> io::Result<()> {
        let game = self.game;
        print!(rt; "{} counters of {} lanes: ", game.n, game.dimension)?;
        rt.write_all(words(self.text, game.title))?;
        self.ask_all(rt, Table::Person)?;
        print!(rt; "\n\nquery,rank,node,bits")?;
        self.ask_all(rt, Table::Ranks)?;
        print!(rt; "\n\nquery,refusal,first,second")?;
        self.ask_all(rt, Table::Refusals)?;
        print!(rt; "\n\nnode,edges")?;
        self.put_graph(rt)
    }

    // Looks all queries up, for one of the tables.
    fn ask_all(&self, rt: &impl Print, table: Table) -> io::Result<()> {
        let mut queries = self.queries;
        for i in 0..self.game.asked {
            let Some((query, behind)) = queries.split_at_checked(self.game.dimension) else {
                return Ok(());
            };
            if table == Table::Person {
                print!(rt; "\n\nquery {}  ", i + 1)?;
                self.put_name(rt, self.game.n.wrapping_add(i))?;
            }
            self.ask(rt, table, i + 1, query)?;
            queries = behind;
        }
        Ok(())
    }

    // Prints the name of a counter or query, and its lanes as the file has them.
    fn put_name(&self, rt: &impl Print, node: usize) -> io::Result<()> {
        rt.write_all(words(self.text, games::name_of(self.wholes, node)))
    }

    // Looks a query up and prints its answer, in one of the tables.
    fn ask(&self, rt: &impl Print, table: Table, asked: usize, query: &[f32]) -> io::Result<()> {
        let mut nodes: [u32; 64] = [0; 64];
        let mut bits: [u32; 64] = [0; 64];
        match self.look(query, &mut nodes, &mut bits) {
            Ok(SearchCounts { m, takings: _ }) => {
                let m = m.min(nodes.len());
                self.put_found(rt, table, asked, &nodes[..m], &bits[..m])
            }
            Err(r) => put_refused(rt, table, asked, r),
        }
    }

    // Looks a query up.
    fn look(
        &self,
        query: &[f32],
        nodes: &mut [u32],
        bits: &mut [u32],
    ) -> Result<SearchCounts, Refusal> {
        let game = self.game;
        let roots = game.roots.min(self.wholes.len());
        search::search(
            game.dimension,
            game.n,
            self.lanes,
            self.graph,
            game.params.index_size,
            &self.wholes[..roots],
            query,
            game.k,
            nodes,
            bits,
            &mut crate::rooms::search_words(),
            &mut crate::rooms::search_floats(),
        )
    }

    // The counters that a query's answer names, nearest first.
    fn put_found(
        &self,
        rt: &impl Print,
        table: Table,
        asked: usize,
        nodes: &[u32],
        bits: &[u32],
    ) -> io::Result<()> {
        for (i, (node, bit)) in nodes.iter().zip(bits).enumerate() {
            let rank = i.wrapping_add(1);
            match table {
                Table::Person => {
                    print!(rt; "\n      {rank}  ")?;
                    self.put_name(rt, *node as usize)?;
                }
                Table::Ranks => print!(rt; "\n{asked},{rank},{node},{bit}")?,
                Table::Refusals => {}
            }
        }
        Ok(())
    }

    // The edges of every node.
    fn put_graph(&self, rt: &impl Print) -> io::Result<()> {
        let size = self.game.params.index_size;
        if size == 0 {
            return Ok(());
        }
        for (node, row) in self.graph.chunks(size).enumerate() {
            print!(rt; "\n{node},")?;
            self.put_row(rt, row)?;
        }
        Ok(())
    }

    // The edges of a node: a place that names no counter is none.
    fn put_row(&self, rt: &impl Print, row: &[u32]) -> io::Result<()> {
        for (column, to) in row.iter().enumerate() {
            if (*to as usize) < self.game.n {
                let between = if column == 0 { "" } else { " " };
                print!(rt; "{between}{to}")?;
            }
        }
        Ok(())
    }
}

// A query's refusal: no counter is named.
fn put_refused(rt: &impl Print, table: Table, asked: usize, r: Refusal) -> io::Result<()> {
    match table {
        Table::Person => {
            print!(rt; "\n      no name: refused")?;
            put_refusal(rt, r)
        }
        Table::Ranks => Ok(()),
        Table::Refusals => {
            let said = Said::from(r);
            print!(rt; "\n{asked},{},{},{}", said.refusal, said.first, said.second)
        }
    }
}
