ghost use Rattle.std.specs.Prelude.{◌≡◌, IfOk};
ghost use Rattle.k8s_meta.specs.Spots.{Reads, seen};
ghost use Rattle.policy_objects.specs.Blocks.{all_blocks, block_at, blocks_or_all, family_block};

use k8s_meta::fault::ReadFault;
use k8s_meta::key::Key;
use k8s_meta::place::Place;
use k8s_meta::reader::Reader;
use k8s_meta::words::Network;
use mesh_base::list::List;
use mesh_base::memory::Memory;
use net_cidr::block::Block;
use net_cidr::ip::Ip;
use net_cidr::net::Net;
use std::alloc::Global;

/// A network with its exceptions.
pub struct NetworkBlock;

impl Reader for NetworkBlock {
    type Made = Block;

    ghost reading = { λ _. block_at };

    #[tactic(auto, unfolding(k8s_meta::specs::Spots::then, crate::specs::Blocks::block_at))]
    fn read<'a>(&self, place: &'a Place<'a>) -> Result<Block, ReadFault> {
        place.object()?;
        let net = place.required(Key::Cidr, &Network)?;
        let except = place.each(Key::Except, &Network)?;
        Ok(Block { net, except })
    }
}

/// Returns the blocks, or all addresses if there are none.
#[tactic(auto, unfolding(crate::specs::Blocks::blocks_or_all))]
pub fn blocks_or_all(alloc: Global, blocks: List<Block>) -> Result<List<Block>, Memory>
    ensures { IfOk result (λ all. all ≡ blocks_or_all blocks) }
{
    if blocks.len() == 0 {
        all_blocks(alloc)
    } else {
        Ok(blocks)
    }
}

fn all_blocks(alloc: Global) -> Result<List<Block>, Memory>
    ensures { IfOk result (λ blocks. blocks ≡ all_blocks) }
{
    let mut blocks = List::new(alloc);
    blocks.add(family_block(alloc, Ip::V4(0)))?;
    blocks.add(family_block(alloc, Ip::V6(0)))?;
    Ok(blocks)
}

/// Returns all addresses of the family with this first address.
fn family_block(alloc: Global, first: Ip) -> Block
    ensures { result ≡ family_block first }
{
    Block {
        net: Net {
            base: first,
            bits: 0,
        },
        except: List::new(alloc),
    }
}
