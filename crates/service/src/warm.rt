// U10's save and restore for C: the image of a box in a lent area.
ghost use Rattle.std.specs.Prelude.{◌≡◌};
ghost use Rattle.service.specs.LeftWarm.{leaves_save, leaves_restore};

// Flushes the box and writes its image into `area`.
#[tactic(auto, unfolding(fields::specs::Fields::fitting, crate::specs::LeftWarm::leaves_save, crate::specs::LeftWarm::saved_in))]
#[unsafe(no_mangle)]
pub extern "C" fn mindavehu_save(
    state: &mut [u8],
    disk: &mut [u8],
    flash: &[u8],
    addresses: &mut [u8],
    blocks: &[u8],
    area: &mut [u8],
    answer: &mut [u8],
) -> u32
    ensures { record {
      number = result;
      state = state.new;
      disk = disk.new;
      flash = flash.now;
      addresses = addresses.new;
      blocks = blocks.now;
      area = area.new;
      answer = answer.new;
    }
        ≡ leaves_save state.old disk.old flash.now addresses.old blocks.now area.old
        answer.old }
{
    if !fields::fit(24, state, answer) {
        return 2;
    }
    let b = fields::record_in(state);
    let c = fields::counters_in(state);
    let o = saving::save(b, disk, flash, addresses, blocks, area, c);
    fields::write_outcome(state, answer, o)
}

// Gives back the box whose image is in `area`, and clears the image's header. The counters in `state` are kept.
#[tactic(auto, unfolding(crate::specs::LeftWarm::leaves_restore, crate::specs::LeftWarm::restored_in, tables::specs::Rows::zeros))]
#[unsafe(no_mangle)]
pub extern "C" fn mindavehu_restore(
    state: &mut [u8],
    area: &mut [u8],
    addresses: &mut [u8],
    blocks: &mut [u8],
    lists: &mut [u8],
) -> u32
    ensures { record {
      number = result;
      state = state.new;
      area = area.new;
      addresses = addresses.new;
      blocks = blocks.new;
      lists = lists.new;
    }
        ≡ leaves_restore state.old area.old addresses.old blocks.old lists.old }
{
    if state.len() != fields::STATE {
        return 2;
    }
    let restored = restoring::restore(area, addresses, blocks, lists);
    fields::put_record(state, restoring::records(&restored).box_record);
    refusal::number(&restored)
}
